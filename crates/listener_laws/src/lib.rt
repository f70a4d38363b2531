#![tactic(auto)]

// Demand 3 as one theorem over the listener, the reader and the writer. This crate has no function.

#![tactic(auto)]

// Demand 2 as theorems: what is written reads back, and what is read is written back. This crate has no function.

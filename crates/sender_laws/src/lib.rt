#![tactic(auto)]

// The sender over any list of calls, as theorems. This crate has no function.

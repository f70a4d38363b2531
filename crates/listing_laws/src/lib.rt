#![tactic(auto)]

// Listing block by block, as theorems: wherever the cuts fall, the text is that of the whole. This crate has no function.

// Whole messages, written and read back.
#![tactic(auto)]

pub mod rewrite;
pub mod write;

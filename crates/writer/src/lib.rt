// The message writer: packets are added one by one to a lent buffer.
#![tactic(auto)]

mod parts;
pub mod writer;

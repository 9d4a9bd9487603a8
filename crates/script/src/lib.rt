// The language of the player's scripts: a line is an event.
#![tactic(auto)]

pub mod event;
pub mod numbers;
pub mod parts;
pub mod print;
pub mod reader;
pub mod text;

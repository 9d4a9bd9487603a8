// Writing a log: an open log is a carrier, and closing moves it into a closed one.
#![tactic(auto)]

pub mod open;
mod parts;

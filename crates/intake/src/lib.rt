// Input, octet by octet: its lines become events that wait.
#![tactic(auto)]

pub mod intake;

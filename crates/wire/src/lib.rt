// The wire: packets and messages, and how they are read.
#![tactic(auto)]

pub mod kind;
pub mod message;
pub mod packet;
mod reader;
pub mod unread;

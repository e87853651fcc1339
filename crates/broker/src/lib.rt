// The state of the message broker, by value, and its parts. Paper 01 calls the broker the desk.
#![tactic(auto)]

pub mod link;
pub mod process;
pub mod state;

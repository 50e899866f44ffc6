// Reading a message from its CAN frames, by the rules of `can_rules`.
#![tactic(auto)]

mod check;
mod reader;

pub use reader::read;

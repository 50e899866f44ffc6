// Writing a message as CAN frames, by the rules of `can_rules`.
#![tactic(auto)]

mod frame;
mod writer;

pub use writer::write;

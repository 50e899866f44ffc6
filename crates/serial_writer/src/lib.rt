// Writing a message as a frame of UART or RS485, by the rules of `serial_rules`.
#![tactic(auto)]

mod double;
mod start;
mod writer;

pub use writer::write;

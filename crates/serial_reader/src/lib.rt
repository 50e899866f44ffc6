// Reading a frame of UART or RS485, by the rules of `serial_rules`.
#![tactic(auto)]

mod frame;
mod kind;
mod reader;
mod undouble;

pub use reader::read;

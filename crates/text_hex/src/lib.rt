// Byte strings in hexadecimal digits, read and printed by the rules of `text_rules` (`Hex`).
#![tactic(auto)]

mod reader;
mod writer;

pub use reader::read_hex;
pub use writer::write_hex;

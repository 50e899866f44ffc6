// The fields of a message, for readers and writers: what tells the error, as the kind carries it, and the numbers of error bytes and refusals. The
// rules are definitions of `message_rules`.
#![tactic(auto)]

mod carried;
mod numbers;

pub use carried::error_fields_carried;
pub use numbers::{error_number, refusal_number};

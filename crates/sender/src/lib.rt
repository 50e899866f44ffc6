// The sender of an upload (document 01, "The sender and its rounds"): starting it, its request, the answer that it hears, and what it
// reports. The state goes by value, and a refused call gives none: the caller keeps the one that it has.
//
// The rules are the definitions that demand 3 is proved of: `specs/Sender.antt` and `specs/Hearing.antt` of the crate `sender_rules`, where the
// types stand too.
#![tactic(auto)]

mod checks;
mod hearer;
mod requester;

pub use hearer::hear;
pub use requester::request;
pub use sender_state::{frames_known, start};

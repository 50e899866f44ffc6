// The listing of a UART stream, as text. The rules are `listing_rules`'s.
#![tactic(auto)]

mod line;
mod put;
mod walk;

pub use walk::list;

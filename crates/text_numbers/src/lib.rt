// Reading single digits and decimal numbers, by the rules of `text_rules` (`Digits`, `Numbers`).
#![tactic(auto)]

mod digit;
mod numbers;

pub use digit::digit_value;
pub use numbers::number;

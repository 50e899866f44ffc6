// The scan of a message's CAN frames, single or in a series, by the rules of `can_rules`.
#![tactic(auto)]

mod check;
mod scanner;

pub use scanner::scan;

// What the frames at the start of an input measure, where all passed their checks.
#[derive(Clone, Copy)]
pub struct Whole {
    // How many bytes of the input are left after the last frame.
    pub rest: usize,
    // How many bytes the payload has.
    pub size: usize,
}

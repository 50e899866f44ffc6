// What the listing of a UART stream is, as text: the rules, and the types that a line is made of. `listing_writer` has the code.
//
// The rules are definitions of `specs/`: `Listing` (which frames there are, and what is said of each) and `Lines` (a line and its
// text).
#![tactic(auto)]

use message_rules::Kind;

// A line: the offset of a frame's ESC, and what is said of the frame.
#[derive(Clone, Copy)]
pub struct Line {
    pub at: usize,
    // None stands for `refused`.
    pub name: Option<Kind>,
    // Of these none stands for `-`.
    pub id: Option<usize>,
    pub len: Option<usize>,
    pub code: Option<usize>,
}

// Progress of a long file, on standard error where that is a terminal. The cursor stays in front of what is shown, so that what is written
// next takes its place.
use sender_rules::Sender;
use std::io::{IsTerminal, Print};

// So many rounds lie between two signs of progress: a file of fewer than 1,024 frames shows none.
const STEP: u32 = 4096;

// How much of the file is known to be stored, in three places. What standard error does not take is not shown.
pub(crate) fn show(errors: &(impl Print + IsTerminal), sender: Sender) {
    let frames = file_frames::frame_count(sender.size) as u64;
    if sender.rounds % STEP == 0 && frames > 0 && errors.is_terminal() {
        let percent = sender.frame as u64 * 100 / frames;
        let _ = print!(errors; "{percent:2}%\x08\x08\x08");
    }
}

// Takes away what was shown in so many rounds.
pub(crate) fn clear(errors: &(impl Print + IsTerminal), rounds: u32) {
    if rounds >= STEP && errors.is_terminal() {
        let _ = print!(errors; "   \x08\x08\x08");
    }
}

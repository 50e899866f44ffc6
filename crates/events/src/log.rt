// The report over what an open file gives.
//
// No contract can say what is read or printed. What lies between is `event_report::report`, with its promise.
ghost use Rattle.std.specs.Prelude.{◌≡◌, length};

use crate::print;
use event_rules::{LONGEST_LOG, RECORD_SIZE};
use std::io;
use std::io::{Print, Read};

// One byte more than a log may have, so that a longer input is seen.
const INPUT: usize = LONGEST_LOG + 1;

// Reports on what is read from an open file: all of it, or as much as shows that it is too long.
pub(crate) fn print_report(rt: &impl Print, input: &mut impl Read) -> io::Result<()> {
    let mut bytes = input_space();
    let n = console::read_full(input, &mut bytes);
    if n < INPUT && failed(input) {
        return print::unread(rt);
    }
    let answer = event_report::report(&bytes[..n]);
    match answer.verdict {
        Ok(()) => print::report(rt, n / RECORD_SIZE, &answer.counts),
        Err(refusal) => print::refused(rt, refusal),
    }
}

// A read that failed ends early, as the end of a log does: another read tells them apart.
fn failed(input: &mut impl Read) -> bool {
    let mut more = [0u8; 1];
    input.read(&mut more).is_err()
}

fn input_space() -> [u8; INPUT]
    ensures { 65521 ≡ length result }
{
    [0; INPUT]
}

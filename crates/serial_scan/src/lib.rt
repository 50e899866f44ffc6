// The scan of a serial frame, from a place inside it to where it ends or is broken off: reader and listing both use it. ESC and the
// tail are those of the link that is read. The rules are `serial_rules`'s: `Stuffing`.
#![tactic(auto)]

ghost use Rattle.std.specs.Prelude.{◌≡◌};
ghost use Rattle.serial_scan.specs.Scan.{found, scan_from};

use serial_fields::{escape, tail};
use serial_rules::{SerialLink, Stop};

// What a scan found: how it stopped, the place where it stopped, and how many bytes the body has.
#[derive(Clone, Copy)]
pub struct Scanned {
    pub stop: Stop,
    pub end: usize,
    pub count: usize,
}

pub fn scan(link: SerialLink, bytes: &[u8], from: usize) -> Scanned
    ensures { result ≡ scan_from bytes.now from }
{
    let esc = escape(link);
    let last = tail(link);
    let mut at = from;
    let mut count = 0;
    // A turn takes one byte or two, and the place that it comes to is told.
    while at < bytes.len() {
        match &bytes[at..] {
            [b, ..] if *b != esc => at += 1,
            [_, next, ..] if *next == last => return found(Stop::Ended, at + 2, count),
            [_, next, ..] if *next == esc => at += 2,
            [_, _, ..] => return found(Stop::Broken, at, count),
            _ => break,
        }
        count += 1;
    }
    found(Stop::Cut, at, count)
}

fn found(stop: Stop, end: usize, count: usize) -> Scanned
    ensures { result ≡ found stop end count }
{
    Scanned { stop, end, count }
}

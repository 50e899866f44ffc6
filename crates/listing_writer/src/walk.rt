// The walk over a stream, frame by frame.
ghost use Rattle.std.specs.Prelude.{◌+◌, ◌≤◌, ◌≡◌, length, drop};
ghost use Rattle.std.proofs.lemmas.List.Edits.{sets};
ghost use Rattle.message_rules.specs.Answer.{write_result, within, counted, output_after, written};
ghost use Rattle.serial_rules.specs.Stuffing.{frame_scan};
ghost use Rattle.listing_rules.specs.Lines.{line};
ghost use Rattle.listing_rules.specs.Listing.{frame_length, said, listing};
ghost use Rattle.listing_writer.specs.Put.{Puts};

use crate::line::{put_line, read_line, refused_line};
use crate::put::Text;
use listing_rules::Line;
use message_rules::Refusal;
use serial_fields::Uart;
use serial_rules::{SerialLink, Stop};

const LONGEST_INPUT: usize = 65536;

// Puts the listing of a stream over the start of out. The text is counted before the first byte is stored.
pub fn list(bytes: &[u8], out: &mut [u8]) -> Result<usize, Refusal>
    ensures result_value { write_result result ≡ counted (within out.old (written (listing bytes.now))) }
    ensures out_after { out.new ≡ output_after (within out.old (written (listing bytes.now))) out.old }
{
    if bytes.len() > LONGEST_INPUT {
        return message_output::put(b"input too long\n", out);
    }
    if out.len() < put_listing(bytes, &mut []) {
        return Err(Refusal::OutputTooShort);
    }
    Ok(put_listing(bytes, out))
}

// Puts as much of the listing as out has room for, and gives the length of all of it.
fn put_listing(bytes: &[u8], out: &mut [u8]) -> usize
    requires { length bytes.now ≤ 65536 }
    ensures value { result ≡ length (listing bytes.now) }
    ensures out_after { out.new ≡ sets out.old 0 (listing bytes.now) }
{
    let mut text = Text { out, at: 0 };
    walk(bytes, &mut text);
    text.at
}

// The header, and a line for each frame.
fn walk(bytes: &[u8], text: &mut Text)
    requires short { length bytes.now ≤ 65536 }
    requires start { text.old.at ≡ 0 }
    ensures { Puts (listing bytes.now) text.old text.new }
{
    text.put(b"at kind id len code\n");
    let mut at = 0;
    'frames: loop {
        // By hand: ESC takes the byte after it along, so that a turn goes on by one byte or by two.
        let start = loop {
            if bytes.len() < at + 2 {
                break 'frames;
            }
            if bytes[at] != Uart::ESC {
                at += 1;
                continue;
            }
            if serial_fields::start_row(SerialLink::Uart, bytes[at + 1]).is_some() {
                break at;
            }
            at += 2;
        };
        let scanned = serial_scan::scan(SerialLink::Uart, bytes, start + 2);
        put_line(text, frame_line(bytes, start, scanned.stop, scanned.end));
        at = scanned.end;
    }
}

// The line of the frame that starts at a place, where the scan from there stopped so at that end.
fn frame_line(bytes: &[u8], start: usize, stop: Stop, end: usize) -> Line
    requires stop_value { stop ≡ (frame_scan (drop start bytes.now)).stop }
    requires end_value { (end ≡ start + frame_length (drop start bytes.now)) × (end ≤ length bytes.now) }
    ensures { result ≡ line start (counted (said (frame_scan (drop start bytes.now)).stop (drop start bytes.now))) }
{
    match stop {
        Stop::Broken => refused_line(start, Refusal::BrokenEscape),
        Stop::Cut => refused_line(start, Refusal::Truncated),
        Stop::Ended => read_line(start, &bytes[start..end]),
    }
}

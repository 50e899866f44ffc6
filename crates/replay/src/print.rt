// What replay prints.
ghost use Rattle.std.specs.Prelude.{◌≤◌};

use crate::names;
use crate::state::Unit;
use device::Device;
use event_rules::{EventRecord, EventReport};
use message_rules::{Message, Refusal};
use round_rules::State;
use sender_rules::Sender;
use std::io::Print;
use std::{fmt, io, str};

// A byte string in hexadecimal digits, of at most eight bytes: a longer one is printed by `bytes` and the functions after it.
#[derive(Clone, Copy)]
pub(crate) struct Hex<'a>(pub &'a [u8]);

impl fmt::Display for Hex<'_> {
    fn fmt<W: fmt::Write>(&self, f: &mut fmt::Formatter<W>) -> fmt::Result {
        let mut space = [0u8; 16];
        let length = text_hex::write_hex(self.0, &mut space).unwrap_or(0);
        match space.get(..length) {
            Some(digits) => f.write_str(str::from_utf8(digits).unwrap_or("")),
            None => Ok(()),
        }
    }
}

// A number, `-` where there is none.
#[derive(Clone, Copy)]
struct OrDash(Option<u32>);

impl fmt::Display for OrDash {
    fn fmt<W: fmt::Write>(&self, f: &mut fmt::Formatter<W>) -> fmt::Result {
        match self.0 {
            Some(n) => write!(f, "{n}"),
            None => write!(f, "-"),
        }
    }
}

// The first n bytes of a lent output, or all where there are fewer.
pub(crate) fn front(space: &mut [u8], n: usize) -> &mut [u8] {
    let n = n.min(space.len());
    &mut space[..n]
}

pub(crate) fn text(rt: &impl Print, text: &str) -> io::Result<()> {
    print!(rt; "{text}")
}

// The digits of 4,096 bytes, with a space in front and an LF behind.
const LONGEST_PRINT: usize = 8194;

// A byte string, of at most 4,096 bytes. Its digits are written at once: measured, a store of 4,096 bytes took three times as long by `print!`,
// which takes them one by one.
pub(crate) fn bytes(rt: &impl Print, bytes: &[u8]) -> io::Result<()> {
    let mut text = [b' '; LONGEST_PRINT];
    let end = spell(bytes, &mut text);
    rt.write_all(&text[1..end])
}

// The same, and the line's end.
pub(crate) fn bytes_line(rt: &impl Print, bytes: &[u8]) -> io::Result<()> {
    let mut text = [b' '; LONGEST_PRINT];
    let end = spell(bytes, &mut text);
    rt.write_all(&text[1..end + 1])
}

// ` OUT`: a lent output, whole.
pub(crate) fn output(rt: &impl Print, out: &[u8]) -> io::Result<()> {
    let mut text = [b' '; LONGEST_PRINT];
    let end = spell(out, &mut text);
    rt.write_all(&text[..end])
}

// ` OUT`, and the line's end.
pub(crate) fn last(rt: &impl Print, out: &[u8]) -> io::Result<()> {
    let mut text = [b' '; LONGEST_PRINT];
    let end = spell(out, &mut text);
    rt.write_all(&text[..end + 1])
}

// Puts a byte string's digits behind the space in front, and an LF behind them. Answers where the LF is.
fn spell(bytes: &[u8], text: &mut [u8; LONGEST_PRINT]) -> usize
    ensures low { 1 ≤ result }
    ensures high { result ≤ 8193 }
{
    let length = text_hex::write_hex(bytes, &mut text[1..LONGEST_PRINT - 1]).unwrap_or(0);
    let end = length.min(LONGEST_PRINT - 2) + 1;
    text[end] = b'\n';
    end
}

pub(crate) fn end_line(rt: &impl Print) -> io::Result<()> {
    println!(rt; "")
}

pub(crate) fn ok_line(rt: &impl Print) -> io::Result<()> {
    println!(rt; "ok")
}

// A call that needs a unit or a sender, where there is none.
pub(crate) fn none_line(rt: &impl Print) -> io::Result<()> {
    println!(rt; "none")
}

pub(crate) fn bad_line(rt: &impl Print) -> io::Result<()> {
    println!(rt; "bad line")
}

pub(crate) fn refused(rt: &impl Print, refusal: Refusal) -> io::Result<()> {
    print!(rt; "refused {}", message_fields::refusal_number(refusal))
}

pub(crate) fn refused_line(rt: &impl Print, refusal: Refusal) -> io::Result<()> {
    refused(rt, refusal)?;
    end_line(rt)
}

// How many bytes or records a writer answers.
pub(crate) fn count(rt: &impl Print, written: Result<usize, Refusal>) -> io::Result<()> {
    match written {
        Ok(n) => print!(rt; "{n}"),
        Err(refusal) => refused(rt, refusal),
    }
}

// `KIND ID SOURCE DESTINATION ERROR INDEX LENGTH`.
pub(crate) fn message(rt: &impl Print, message: &Message, length: usize) -> io::Result<()> {
    let name = names::of_kind(message.kind);
    print!(rt;
        "{name} {} {} {} ",
        message.id, message.source, message.destination
    )?;
    match message.error {
        Some(error) => print!(rt; "{error}")?,
        None => print!(rt; "?")?,
    }
    print!(rt; " {} {length}", message.index)
}

// ` PHASE NUMBER BUFFERED CHECKSUM PENDING STORED SIZE JOB LAST` of a unit.
pub(crate) fn unit(rt: &impl Print, device: &Device) -> io::Result<()> {
    let transfer = &device.transfer;
    let length = device_state::buffered_length(*transfer);
    let frame = transfer.buffer.get(..length).unwrap_or(&transfer.buffer);
    print!(rt; " {} {}", names::of_phase(transfer.phase), transfer.number)?;
    print!(rt;
        " {} {} {}",
        frame.len(),
        file_checksum::checksum(frame),
        transfer.pending as u8
    )?;
    print!(rt; " {} {}", transfer.stored, transfer.size)?;
    print!(rt; " {} {}", OrDash(transfer.job), OrDash(device.finished))
}

// ` STATE STAGE FRAME SINCE ROUNDS KNOWN` of a sender.
pub(crate) fn sender(rt: &impl Print, sender: &Sender) -> io::Result<()> {
    print!(rt; " {}", names::of_state(sender.state))?;
    match sender.state {
        State::Running => {
            print!(rt;
                " {} {} {}",
                names::of_stage(sender.stage),
                sender.frame,
                sender.since
            )?
        }
        State::Finished | State::GivenUp => print!(rt; " - - -")?,
    }
    print!(rt; " {} {}", sender.rounds, sender::frames_known(*sender))
}

// `COUNTER UPTIME UNIX MILLISECONDS IDENTIFIER DATA`
pub(crate) fn event(rt: &impl Print, event: &EventRecord) -> io::Result<()> {
    print!(rt; "{} {} {}", event.counter, event.uptime, event.seconds)?;
    print!(rt;
        " {} {} {}",
        event.milliseconds,
        event.identifier,
        Hex(&event.data)
    )
}

// Four counts of classes, 32 of sources, and that of the records that are earlier.
pub(crate) fn report(rt: &impl Print, report: &EventReport) -> io::Result<()> {
    let classes = &report.classes;
    print!(rt; "{}", classes[0])?;
    counts(rt, &classes[1..])?;
    counts(rt, &report.sources)?;
    print!(rt; " {}", report.earlier)
}

fn counts(rt: &impl Print, counts: &[u32]) -> io::Result<()> {
    for count in counts {
        print!(rt; " {count}")?;
    }
    Ok(())
}

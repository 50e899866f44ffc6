// Reading a frame. Everything is decided before the first byte is stored, and a checked frame is undoubled straight into
// the lent output: no array is kept.
ghost use Rattle.std.specs.Prelude.{◌+◌, ◌≤◌, ◌≡◌, length, drop};
ghost use Rattle.message_rules.specs.Answer.{read_result, within, counted, output_after, given};
ghost use Rattle.serial_rules.specs.Stuffing.{frame_scan};
ghost use Rattle.serial_rules.specs.Frames.{front_length, id_field, kind_read, frame_body, row_read, frame_read};

use crate::frame::Frame;
use crate::kind::kind_of;
use message_rules::{Kind, Message, Refusal};
use serial_fields::{escape, source_legal, start_row};
use serial_rules::{SerialLink, StartRow, Stop};
use serial_scan::scan;

// Reads one frame that is the whole input; its payload goes to the start of out.
#[tactic(auto, unfolding(serial_rules::specs::Frames::frame_read, serial_rules::specs::Frames::started, message_rules::specs::Answer::require, message_rules::specs::Answer::after, message_rules::specs::Answer::within, message_rules::specs::Answer::counted, message_rules::specs::Answer::output_after, message_rules::specs::Answer::read_result))]
pub fn read(link: SerialLink, bytes: &[u8], out: &mut [u8]) -> Result<(Message, usize), Refusal>
    ensures result_value { read_result result ≡ counted (within out.old (frame_read link bytes.now)) }
    ensures out_after { out.new ≡ output_after (within out.old (frame_read link bytes.now)) out.old }
{
    let start = match bytes {
        [first, ..] if *first != escape(link) => return Err(Refusal::UnknownStart),
        [_, start, ..] => *start,
        _ => return Err(Refusal::Truncated),
    };
    let row = start_row(link, start).ok_or(Refusal::UnknownStart)?;
    read_started(link, row, bytes, out)
}

// Reads after a start byte of the link: the frame must end where the input ends.
#[tactic(auto, unfolding(serial_rules::specs::Frames::row_read, serial_rules::specs::Frames::closed, message_rules::specs::Answer::require, message_rules::specs::Answer::after, message_rules::specs::Answer::within, message_rules::specs::Answer::counted, message_rules::specs::Answer::output_after, message_rules::specs::Answer::read_result))]
fn read_started(
    link: SerialLink,
    row: StartRow,
    bytes: &[u8],
    out: &mut [u8],
) -> Result<(Message, usize), Refusal>
    requires { 2 ≤ length bytes.now }
    ensures result_value { read_result result ≡ counted (within out.old (row_read link row (drop 2 bytes.now))) }
    ensures out_after { out.new ≡ output_after (within out.old (row_read link row (drop 2 bytes.now))) out.old }
{
    let scanned = scan(link, bytes, 2);
    match scanned.stop {
        Stop::Cut => Err(Refusal::Truncated),
        Stop::Broken => Err(Refusal::BrokenEscape),
        Stop::Ended => {
            if scanned.end != bytes.len() {
                return Err(Refusal::TrailingBytes);
            }
            let frame = Frame {
                link,
                row,
                bytes,
                count: scanned.count,
            };
            read_frame(&frame, out)
        }
    }
}

// Reads a frame from its fields in front of the data on.
#[tactic(auto, unfolding(serial_rules::specs::Frames::frame_body, serial_rules::specs::Frames::identified, message_rules::specs::Answer::require, message_rules::specs::Answer::after, message_rules::specs::Answer::within, message_rules::specs::Answer::counted, message_rules::specs::Answer::output_after, message_rules::specs::Answer::read_result))]
fn read_frame(frame: &Frame, out: &mut [u8]) -> Result<(Message, usize), Refusal>
    ensures result_value { read_result result ≡ counted (within out.old (frame_body frame.now.link frame.now.row (frame_scan frame.now.bytes.now).body)) }
    ensures out_after { out.new ≡ output_after (within out.old (frame_body frame.now.link frame.now.row (frame_scan frame.now.bytes.now).body)) out.old }
{
    if frame.count < frame.front_length() {
        return Err(Refusal::WrongLength);
    }
    let id = frame.id();
    let kind = kind_of(frame.row, id).ok_or(Refusal::IdOutOfRange)?;
    read_data(frame, kind, id, out)
}

// Reads a frame whose ID decided for a kind.
#[tactic(auto, unfolding(serial_rules::specs::Frames::kind_read, serial_rules::specs::Frames::source_checked, message_rules::specs::Data::data_read, message_rules::specs::Data::data_message, message_rules::specs::Answer::verdict_result, message_rules::specs::Answer::require, message_rules::specs::Answer::after, message_rules::specs::Answer::within, message_rules::specs::Answer::counted, message_rules::specs::Answer::output_after, message_rules::specs::Answer::read_result))]
fn read_data(frame: &Frame, kind: Kind, id: u8, out: &mut [u8]) -> Result<(Message, usize), Refusal>
    requires id_value { id ≡ id_field frame.now.row (frame_scan frame.now.bytes.now).body }
    requires front_bound { front_length frame.now.link frame.now.row ≤ frame.now.count }
    ensures result_value { read_result result ≡ counted (within out.old (kind_read frame.now.link frame.now.row kind (frame_scan frame.now.bytes.now).body)) }
    ensures out_after { out.new ≡ output_after (within out.old (kind_read frame.now.link frame.now.row kind (frame_scan frame.now.bytes.now).body)) out.old }
{
    let front = frame.front_length();
    let raw = Message {
        kind,
        id,
        source: frame.address(0),
        destination: frame.address(1),
        error: Some(frame.byte(front)),
        index: frame.byte(front + 1),
    };
    let message = message_fields::error_fields_carried(raw);
    message_checks::check_data(message, frame.count - front)?;
    if !source_legal(frame.link, raw.source) {
        return Err(Refusal::IllegalValue);
    }
    read_payload(
        frame,
        message,
        front + message_kinds::error_length(kind),
        out,
    )
}

// Undoubles the payload, which stands after skipped bytes of the body, into the output.
#[tactic(auto, unfolding(message_rules::specs::Answer::require, message_rules::specs::Answer::after, message_rules::specs::Answer::within, message_rules::specs::Answer::counted, message_rules::specs::Answer::output_after, message_rules::specs::Answer::read_result))]
fn read_payload(
    frame: &Frame,
    message: Message,
    skipped: usize,
    out: &mut [u8],
) -> Result<(Message, usize), Refusal>
    requires { skipped ≤ frame.now.count }
    ensures result_value { read_result result ≡ counted (within out.old (given message (drop skipped (frame_scan frame.now.bytes.now).body))) }
    ensures out_after { out.new ≡ output_after (within out.old (given message (drop skipped (frame_scan frame.now.bytes.now).body))) out.old }
{
    let size = frame.count - skipped;
    if out.len() < size {
        return Err(Refusal::OutputTooShort);
    }
    frame.undouble(skipped, out);
    Ok((message, size))
}

// Writing a frame: everything is checked and counted before the first byte is stored, so a refusal leaves the lent output as it came.
ghost use Rattle.std.specs.Prelude.{◌+◌, ◌-◌, ◌≤◌, ◌++◌, ◌≡◌, length, slice_range};
ghost use Rattle.message_rules.specs.Answer.{write_result, within, counted, output_after, written};
ghost use Rattle.message_rules.specs.Data.{error_bytes};
ghost use Rattle.message_rules.specs.Kinds.{error_length};
ghost use Rattle.serial_rules.specs.Frames.{row_of, front_fields, checked_frame, frame_write, id_length, address_length};
ghost use Rattle.serial_writer.specs.Framed.{framed};

use crate::double::{double, doubled_length};
use crate::start::{row_of, serial_carries, start_byte};
use message_fields::error_number;
use message_kinds::error_length;
use message_rules::{Message, Refusal};
use serial_fields::{address_length, escape, id_length, source_legal, tail};
use serial_rules::SerialLink;

// Writes a message with its payload as a frame to the start of out.
#[tactic(auto, unfolding(serial_rules::specs::Frames::frame_write, message_rules::specs::Answer::verdict_result, message_rules::specs::Answer::after, message_rules::specs::Answer::within, message_rules::specs::Answer::counted, message_rules::specs::Answer::output_after, message_rules::specs::Answer::write_result))]
pub fn write(
    link: SerialLink,
    message: Message,
    payload: &[u8],
    out: &mut [u8],
) -> Result<usize, Refusal>
    ensures result_value { write_result result ≡ counted (within out.old (frame_write link message payload.now)) }
    ensures out_after { out.new ≡ output_after (within out.old (frame_write link message payload.now)) out.old }
{
    message_checks::check_written(serial_carries(link), message, payload.len())?;
    write_checked(link, message, payload, out)
}

// Writes a message that passed the checks that all links share; they allow a payload of at most 256 bytes.
#[tactic(auto, unfolding(serial_rules::specs::Frames::checked_frame, message_rules::specs::Answer::require, message_rules::specs::Answer::after, message_rules::specs::Answer::within, message_rules::specs::Answer::counted, message_rules::specs::Answer::output_after, message_rules::specs::Answer::write_result), using(serial_rules::proofs::Lengths::frame_parts))]
fn write_checked(
    link: SerialLink,
    message: Message,
    payload: &[u8],
    out: &mut [u8],
) -> Result<usize, Refusal>
    requires { length payload.now ≤ 256 }
    ensures result_value { write_result result ≡ counted (within out.old (checked_frame link message payload.now)) }
    ensures out_after { out.new ≡ output_after (within out.old (checked_frame link message payload.now)) out.old }
{
    if !source_legal(link, message.source) {
        return Err(Refusal::IllegalValue);
    }
    let row = row_of(message.kind);
    let fields = fields(link, message);
    // An event has no ID.
    let first = 1 - id_length(row);
    let front = &fields[first..1 + address_length(link) + error_length(message.kind)];
    put_frame(link, start_byte(link, row), front, payload, out)
}

// What can stand in front of the payload on a link, in its order: the ID, source and destination, and what tells the error.
fn fields(link: SerialLink, message: Message) -> [u8; 5]
    ensures { slice_range result (1 - id_length (row_of message.kind)) (1 + address_length link + error_length message.kind) ≡ front_fields link (row_of message.kind) message ++ error_bytes message }
{
    let error = error_number(message.error);
    match link {
        SerialLink::Uart => [message.id, error, message.index, 0, 0],
        SerialLink::Rs485 => [
            message.id,
            message.source,
            message.destination,
            error,
            message.index,
        ],
    }
}

// Puts a frame over the start of out: the front and the payload doubled, between the start and the tail.
fn put_frame(
    link: SerialLink,
    start: u8,
    front: &[u8],
    payload: &[u8],
    out: &mut [u8],
) -> Result<usize, Refusal>
    requires short_front { length front.now ≤ 5 }
    requires short_payload { length payload.now ≤ 256 }
    ensures result_value { write_result result ≡ counted (within out.old (written (framed start (front.now ++ payload.now)))) }
    ensures out_after { out.new ≡ output_after (within out.old (written (framed start (front.now ++ payload.now)))) out.old }
{
    let size = 4 + doubled_length(link, front) + doubled_length(link, payload);
    if out.len() < size {
        return Err(Refusal::OutputTooShort);
    }
    out[0] = escape(link);
    out[1] = start;
    let data = double(link, front, out, 2);
    let end = double(link, payload, out, data);
    out[end] = escape(link);
    out[end + 1] = tail(link);
    Ok(size)
}

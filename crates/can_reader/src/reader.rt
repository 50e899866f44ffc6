// Reading a message of one frame or of a series. Everything is decided before the first byte is stored, and the payload is copied
// out of the frames straight into the lent output: no array is kept.
ghost use Rattle.std.specs.Prelude.{◌≡◌, [], length};
ghost use Rattle.message_rules.specs.Answer.{read_result, within, counted, output_after, given};
ghost use Rattle.can_rules.specs.Can.{all_frames, can_read};

use crate::check::{can_message, check_message};
use can_rules::{FIRST_SERIES, FRAME_SIZE};
use can_scan::{Whole, scan};
use message_rules::{Message, Refusal};

// Reads one message whose frames are the whole input; its payload goes to the start of out.
pub fn read(bytes: &[u8], out: &mut [u8]) -> Result<(Message, usize), Refusal>
    ensures result_value { read_result result ≡ counted (within out.old (can_read bytes.now)) }
    ensures out_after { out.new ≡ output_after (within out.old (can_read bytes.now)) out.old }
{
    let Whole { rest, size } = scan(bytes)?;
    if 0 < rest {
        return Err(Refusal::TrailingBytes);
    }
    let message = can_message(bytes);
    check_message(bytes[3], message, size)?;
    if out.len() < size {
        return Err(Refusal::OutputTooShort);
    }
    copy_payload(bytes, &mut out[..size]);
    Ok((message, size))
}

// Fills out with the payload of frames that passed their checks and are the whole input: the data of a single frame, or all the data of
// each frame of a series but its count.
fn copy_payload(bytes: &[u8], out: &mut [u8])
    requires { counted (all_frames bytes.now) ≡ given [] (length out.old) }
    ensures { all_frames bytes.now ≡ given [] out.new }
{
    if bytes[3] < FIRST_SERIES {
        let size = out.len();
        out.copy_from_slice(&bytes[5..5 + size]);
        return;
    }
    let mut to = 0;
    for frame in bytes.chunks_exact(FRAME_SIZE) {
        let n = frame[4] as usize - 1;
        out[to..to + n].copy_from_slice(&frame[5..5 + n]);
        to += n;
    }
}

// The scan of frames in their order: the first faulty frame from the left decides.
ghost use Rattle.std.specs.Prelude.{◌≤◌, ◌≡◌, length, take};
ghost use Rattle.message_rules.specs.Answer.{passed};
ghost use Rattle.can_rules.specs.Can.{frame_size, first_series, type_field, first_checks, all_frames};
ghost use Rattle.can_scan.specs.Measured.{frames_result, measured};

use crate::Whole;
use crate::check::{first_checks, later_checks};
use can_rules::{FIRST_SERIES, FRAME_SIZE, PART_SIZE};
use message_rules::Refusal;

// Scans the frames at the start of the input. A single frame is all.
pub fn scan(bytes: &[u8]) -> Result<Whole, Refusal>
    ensures { frames_result result ≡ measured (all_frames bytes.now) }
{
    let Some((first, later)) = bytes.split_first_chunk::<FRAME_SIZE>() else {
        return Err(Refusal::Truncated);
    };
    first_checks(first)?;
    if first[3] < FIRST_SERIES {
        return Ok(Whole {
            rest: later.len(),
            size: first[4] as usize,
        });
    }
    scan_series(bytes)
}

// Checks the later frames of a series, whose first passed its checks, and adds up the bytes of payload that they have.
fn scan_series(bytes: &[u8]) -> Result<Whole, Refusal>
    requires { (frame_size ≤ length bytes.now) × (first_checks (take frame_size bytes.now) ≡ passed) × (first_series ≤ type_field bytes.now) }
    ensures { frames_result result ≡ measured (all_frames bytes.now) }
{
    let mut rest = &bytes[FRAME_SIZE..];
    let mut size = PART_SIZE;
    for left in (0..bytes[12]).rev() {
        let Some((frame, others)) = rest.split_first_chunk::<FRAME_SIZE>() else {
            return Err(Refusal::Truncated);
        };
        later_checks(&bytes[..4], left, frame)?;
        size += frame[4] as usize - 1;
        rest = others;
    }
    Ok(Whole {
        rest: rest.len(),
        size,
    })
}

// The checks of one frame, in their order. A frame has 13 bytes: the identifier in 0..4, the DLC at 4, the data from 5 on.
ghost use Rattle.std.specs.Prelude.{◌≤◌, ◌≡◌, IsTrue, OnOk};
ghost use Rattle.message_rules.specs.Answer.{verdict_result, passed};
ghost use Rattle.can_rules.specs.Can.{data_size, dlc, type_legal, first_fits, frame_checks, first_checks, later_fits, later_checks, zeros};

use can_rules::{DATA_SIZE, FIRST_SERIES, FRAME_SIZE, MOST_LATER, PART_SIZE};
use message_rules::Refusal;

#[tactic(auto, unfolding(can_rules::specs::Can::type_legal))]
fn type_legal(t: u8) -> bool
    ensures { result ≡ type_legal t }
{
    1 <= t && t <= 9
}

#[tactic(auto, unfolding(can_rules::specs::Can::first_fits))]
fn first_fits(t: u8, used: u8, count: u8) -> bool
    ensures value { result ≡ first_fits t used count }
    ensures bound { IsTrue result → used ≤ data_size }
{
    match t {
        1 | 5 => used as usize <= DATA_SIZE,
        FIRST_SERIES.. => used as usize == DATA_SIZE && 1 <= count && count <= MOST_LATER,
        _ => used == 0,
    }
}

// Whether a frame's DLC fits its place: so many frames are still to come.
#[tactic(auto, unfolding(can_rules::specs::Can::later_fits))]
fn later_fits(left: u8, used: u8) -> bool
    ensures value { result ≡ later_fits left used }
    ensures bound { IsTrue result → used ≤ data_size }
{
    if left == 0 {
        return 1 <= used && used as usize <= PART_SIZE;
    }
    used as usize == DATA_SIZE
}

// Whether all bytes are 0.
fn zeros(bytes: &[u8]) -> bool
    ensures { result ≡ zeros bytes.now }
{
    bytes.iter().all(|byte| *byte == 0)
}

// The checks 2, 6 and 7 of a frame at any place: whether its DLC fits there is known.
#[tactic(auto, unfolding(message_rules::specs::Answer::verdict_result, message_rules::specs::Answer::require))]
fn frame_checks(frame: &[u8; FRAME_SIZE], fits: bool) -> Result<(), Refusal>
    requires { IsTrue fits → dlc frame.now ≤ data_size }
    ensures value { verdict_result result ≡ frame_checks frame.now fits passed }
    ensures passes { OnOk result (IsTrue fits) }
{
    if !type_legal(frame[3]) {
        return Err(Refusal::UnknownStart);
    }
    if !fits {
        return Err(Refusal::WrongLength);
    }
    if !zeros(&frame[5 + frame[4] as usize..]) {
        return Err(Refusal::IllegalValue);
    }
    Ok(())
}

// The checks 2, 6 and 7 of a message's first frame.
pub(crate) fn first_checks(frame: &[u8; FRAME_SIZE]) -> Result<(), Refusal>
    ensures { verdict_result result ≡ first_checks frame.now }
{
    frame_checks(frame, first_fits(frame[3], frame[4], frame[12]))
}

// The checks 2, 6, 7 and 10 of a later frame of a series with this identifier, after which so many are still to come.
pub(crate) fn later_checks(
    identifier: &[u8],
    left: u8,
    frame: &[u8; FRAME_SIZE],
) -> Result<(), Refusal>
    ensures { verdict_result result ≡ later_checks identifier.now left frame.now }
{
    let fits = later_fits(left, frame[4]);
    frame_checks(frame, fits)?;
    let count = frame[4 + frame[4] as usize];
    if &frame[..4] != identifier || count != left {
        return Err(Refusal::SeriesMismatch);
    }
    Ok(())
}

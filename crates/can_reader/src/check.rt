// What the first frame tells of a message, and the checks of the message that frames make up, in their order.
ghost use Rattle.std.specs.Prelude.{◌≤◌, ◌≡◌, length};
ghost use Rattle.message_rules.specs.Answer.{verdict_result};
ghost use Rattle.can_rules.specs.Can.{series_kind, kind_of_type, can_error, can_message, can_id_legal, can_fits, message_checks};

use can_rules::{DATA_SIZE, FIRST_SERIES};
use message_kinds::{is_event, is_nack, type_kind};
use message_ranges::{id_legal, payload_legal};
use message_rules::{Kind, Message, Refusal};

// The kind of a type: a single frame's, or else a series'.
#[tactic(auto, unfolding(can_rules::specs::Can::kind_of_type, can_rules::specs::Can::kind_or))]
fn kind_of_type(t: u8) -> Kind
    ensures { result ≡ kind_of_type t }
{
    type_kind(t).unwrap_or(series_kind(t))
}

#[tactic(auto, unfolding(can_rules::specs::Can::series_kind))]
fn series_kind(t: u8) -> Kind
    ensures { result ≡ series_kind t }
{
    match t {
        7 => Kind::Telecommand,
        8 => Kind::TelemetryResponse,
        _ => Kind::Event,
    }
}

// A nack's error is not told on CAN; the other kinds read as 0.
#[tactic(auto, unfolding(can_rules::specs::Can::can_error))]
fn can_error(kind: Kind) -> Option<u8>
    ensures { result ≡ can_error kind }
{
    if is_nack(kind) { None } else { Some(0) }
}

// The message that the first frame of the input tells, without its payload.
#[tactic(auto, unfolding(can_rules::specs::Can::can_message))]
pub(crate) fn can_message(bytes: &[u8]) -> Message
    requires { 4 ≤ length bytes.now }
    ensures { result ≡ can_message bytes.now }
{
    let kind = kind_of_type(bytes[3]);
    Message {
        kind,
        id: bytes[2],
        source: bytes[1],
        destination: bytes[0],
        error: can_error(kind),
        index: 0,
    }
}

// The checks 5 and 6 of a message that came with type t and a payload of this size.
#[tactic(auto, unfolding(message_rules::specs::Answer::verdict_result, message_rules::specs::Answer::require, can_rules::specs::Can::message_checks))]
pub(crate) fn check_message(t: u8, message: Message, size: usize) -> Result<(), Refusal>
    ensures { verdict_result result ≡ message_checks t message size }
{
    if !can_id_legal(message.kind, message.id) {
        return Err(Refusal::IdOutOfRange);
    }
    if !can_fits(t, message.kind, size) {
        return Err(Refusal::WrongLength);
    }
    Ok(())
}

// An event's ID is 255, and that of another kind of the kind's range.
#[tactic(auto, unfolding(can_rules::specs::Can::can_id_legal))]
fn can_id_legal(kind: Kind, id: u8) -> bool
    ensures { result ≡ can_id_legal kind id }
{
    if is_event(kind) {
        return id == 255;
    }
    id_legal(kind, id)
}

// The kind can have a payload of this size, and a series has more than a frame's data.
#[tactic(auto, unfolding(can_rules::specs::Can::can_fits))]
fn can_fits(t: u8, kind: Kind, size: usize) -> bool
    ensures { result ≡ can_fits t kind size }
{
    payload_legal(kind, size) && (t < FIRST_SERIES || DATA_SIZE < size)
}

// What each kind allows: whether an ID, a payload's length or an error byte is in the kind's range (`table` has the ranges), and whether a
// number is in a range. The rules are definitions of `message_rules`: `Checks` and `Kinds`.
#![tactic(auto)]

mod table;

ghost use Rattle.std.specs.Prelude.{◌≡◌};
ghost use Rattle.message_rules.specs.Checks.{id_legal, payload_legal, error_legal};
ghost use Rattle.message_rules.specs.Kinds.{inside};

use message_rules::{Kind, Range};
use table::ranges_of;

// Whether a number is in a range, both ends included.
#[tactic(auto, unfolding(message_rules::specs::Kinds::inside))]
pub fn contains(range: Range, n: usize) -> bool
    ensures { result ≡ inside range n }
{
    range.0 <= n && n <= range.1
}

// Whether the ID is of the kind's range.
#[tactic(auto, unfolding(message_rules::specs::Checks::id_legal))]
pub fn id_legal(kind: Kind, id: u8) -> bool
    ensures { result ≡ id_legal kind id }
{
    contains(ranges_of(kind).id, id as usize)
}

// Whether the kind can have a payload of this size.
#[tactic(auto, unfolding(message_rules::specs::Checks::payload_legal))]
pub fn payload_legal(kind: Kind, size: usize) -> bool
    ensures { result ≡ payload_legal kind size }
{
    contains(ranges_of(kind).payload, size)
}

// Whether the kind can have this error byte, told or not. Not told, no ack can have it.
#[tactic(auto, unfolding(message_rules::specs::Checks::error_legal))]
pub fn error_legal(kind: Kind, error: Option<u8>) -> bool
    ensures { result ≡ error_legal kind error }
{
    match error {
        Some(e) => contains(ranges_of(kind).error, e as usize),
        None => !matches!(kind, Kind::TelecommandAck),
    }
}

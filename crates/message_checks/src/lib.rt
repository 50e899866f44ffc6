// The checks of a message, in their order: 5 the ID, 6 the length and 7 the error byte, when it is read and when it is written, and before
// them, when it is written, 9 the link. `can_reader` does not use them: on CAN an event's ID is 255, a series has more than 8 bytes, and there
// is no error byte. It takes the tests of ID and length from `message_ranges`.
// The rules are definitions of `message_rules`: `Checks`.
#![tactic(auto)]

ghost use Rattle.std.specs.Prelude.{◌≡◌};
ghost use Rattle.message_rules.specs.Answer.{verdict_result};
ghost use Rattle.message_rules.specs.Checks.{field_checks, error_told, writable, write_checks, data_fits, data_checks};

use message_kinds::{error_length, is_event, is_nack};
use message_ranges::{error_legal, id_legal, payload_legal};
use message_rules::{Carries, Kind, Message, Refusal};

// The checks 9, 5, 6 and 7 of a message that is to be written with a payload of this size.
#[tactic(auto, unfolding(message_rules::specs::Answer::verdict_result, message_rules::specs::Answer::require, message_rules::specs::Checks::write_checks))]
pub fn check_written(link: Carries, message: Message, size: usize) -> Result<(), Refusal>
    ensures { verdict_result result ≡ write_checks link message size }
{
    if !writable(link, message) {
        return Err(Refusal::NotWritable);
    }
    check_fields(message, payload_legal(message.kind, size))
}

// The checks 5, 6 and 7 of a message that was read with data of this size, where the link carries the error byte.
#[tactic(auto, unfolding(message_rules::specs::Checks::data_checks))]
pub fn check_data(message: Message, size: usize) -> Result<(), Refusal>
    ensures { verdict_result result ≡ data_checks message size }
{
    check_fields(message, data_fits(message.kind, size))
}

#[tactic(auto, unfolding(message_rules::specs::Answer::verdict_result, message_rules::specs::Answer::require, message_rules::specs::Checks::field_checks))]
fn check_fields(message: Message, fits: bool) -> Result<(), Refusal>
    ensures { verdict_result result ≡ field_checks message fits }
{
    if !id_legal(message.kind, message.id) {
        return Err(Refusal::IdOutOfRange);
    }
    if !fits {
        return Err(Refusal::WrongLength);
    }
    if !error_legal(message.kind, message.error) {
        return Err(Refusal::IllegalValue);
    }
    Ok(())
}

#[tactic(auto, unfolding(message_rules::specs::Checks::writable))]
fn writable(link: Carries, message: Message) -> bool
    ensures { result ≡ writable link message }
{
    if is_event(message.kind) {
        return link.events;
    }
    !link.errors || error_told(message.kind, message.error)
}

#[tactic(auto, unfolding(message_rules::specs::Checks::error_told))]
fn error_told(kind: Kind, error: Option<u8>) -> bool
    ensures { result ≡ error_told kind error }
{
    error.is_some() || !is_nack(kind)
}

#[tactic(auto, unfolding(message_rules::specs::Checks::data_fits))]
fn data_fits(kind: Kind, size: usize) -> bool
    ensures { result ≡ data_fits kind size }
{
    let tells = error_length(kind);
    tells <= size && payload_legal(kind, size - tells)
}

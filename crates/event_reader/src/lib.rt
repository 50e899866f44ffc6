// Reading an event record. The rules are `event_rules`'s: `Records`.
#![tactic(auto)]

ghost use Rattle.std.specs.Prelude.{◌≡◌};
ghost use Rattle.message_rules.specs.Answer.{value_result};
ghost use Rattle.event_rules.specs.Records.{event_read};

use event_rules::{EventRecord, LONGEST_LOG, RECORD_SIZE};
use message_rules::Refusal;

// Reads one record, which is the whole input.
#[tactic(auto, using(event_rules::proofs::Turns::record_whole), unfolding(message_rules::specs::Answer::value_result, message_rules::specs::Answer::require, message_rules::specs::Answer::after, event_rules::specs::Records::record_checks, event_rules::specs::Records::event_read))]
pub fn read(bytes: &[u8]) -> Result<EventRecord, Refusal>
    ensures { value_result result ≡ event_read bytes.now }
{
    if bytes.len() > LONGEST_LOG {
        return Err(Refusal::LogTooLong);
    }
    if bytes.len() != RECORD_SIZE {
        return Err(Refusal::PartialRecord);
    }
    let event = event_fields::record_in(bytes);
    if !event_checks::in_second(event) {
        return Err(Refusal::IllegalMilliseconds);
    }
    Ok(event)
}

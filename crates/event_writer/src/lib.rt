// Writing an event record. The rules are `event_rules`'s: `Records`.
//
// Everything is decided before the first byte is stored, so a refusal leaves the lent output as it came.
#![tactic(auto)]

ghost use Rattle.std.specs.Prelude.{◌+◌, ◌++◌, ◌≤◌, ◌≡◌, length, take};
ghost use Rattle.message_rules.specs.Answer.{write_result, within, counted, output_after};
ghost use Rattle.event_rules.specs.Records.{record_bytes, event_write};

use event_rules::{EventRecord, RECORD_SIZE};
use little_endian::{u16_to_bytes, u32_to_bytes};
use message_rules::Refusal;

// Writes a record to the start of out.
#[tactic(auto, unfolding(message_rules::specs::Answer::write_result, message_rules::specs::Answer::within, message_rules::specs::Answer::counted, message_rules::specs::Answer::output_after, message_rules::specs::Answer::require, message_rules::specs::Answer::after, event_rules::specs::Records::event_write))]
pub fn write(event: EventRecord, out: &mut [u8]) -> Result<usize, Refusal>
    ensures result_value { write_result result ≡ counted (within out.old (event_write event)) }
    ensures out_after { out.new ≡ output_after (within out.old (event_write event)) out.old }
{
    if !event_checks::in_second(event) {
        return Err(Refusal::IllegalMilliseconds);
    }
    message_output::put(&record_bytes(event), out)
}

// The 24 bytes of a record.
#[tactic(auto, unfolding(event_rules::specs::Records::record_bytes))]
fn record_bytes(event: EventRecord) -> [u8; RECORD_SIZE]
    ensures { result ≡ record_bytes event }
{
    let mut bytes = [0; RECORD_SIZE];
    put_field(&u32_to_bytes(event.counter), &mut bytes, 0);
    put_field(&u32_to_bytes(event.uptime), &mut bytes, 4);
    put_field(&u32_to_bytes(event.seconds), &mut bytes, 8);
    put_field(&u16_to_bytes(event.milliseconds), &mut bytes, 12);
    put_field(&u16_to_bytes(event.identifier), &mut bytes, 14);
    put_field(&event.data, &mut bytes, 16);
    bytes
}

// Puts a field behind those that stand before its offset.
fn put_field(field: &[u8], bytes: &mut [u8], at: usize)
    requires { at + length field.now ≤ length bytes.old }
    ensures { take (at + length field.now) bytes.new ≡ take at bytes.old ++ field.now }
{
    bytes[at..at + field.len()].copy_from_slice(field);
}

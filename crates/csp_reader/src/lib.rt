// Reading messages from the data of a CSP packet. The rules are `csp_rules`'s.
//
// Everything is decided before the first byte is stored, so a refusal leaves the lent output as it came.
#![tactic(auto)]

ghost use Rattle.std.specs.Prelude.{◌≡◌, get_or};
ghost use Rattle.message_rules.specs.Answer.{read_result, within, counted, output_after};
ghost use Rattle.message_rules.specs.Data.{data_read};
ghost use Rattle.csp_rules.specs.Csp.{csp_read};

use message_rules::{Kind, Message, Refusal};

// Reads a message; its payload goes to the start of out.
#[tactic(auto, unfolding(csp_rules::specs::Csp::csp_read, csp_rules::specs::Csp::csp_typed, message_rules::specs::Answer::require, message_rules::specs::Answer::after, message_rules::specs::Answer::within, message_rules::specs::Answer::counted, message_rules::specs::Answer::output_after, message_rules::specs::Answer::read_result))]
pub fn read(bytes: &[u8], out: &mut [u8]) -> Result<(Message, usize), Refusal>
    ensures result_value { read_result result ≡ counted (within out.old (csp_read bytes.now)) }
    ensures out_after { out.new ≡ output_after (within out.old (csp_read bytes.now)) out.old }
{
    let [number, id, data @ ..] = bytes else {
        return Err(Refusal::Truncated);
    };
    let kind = message_kinds::type_kind(*number).ok_or(Refusal::UnknownStart)?;
    read_data(kind, *id, data, out)
}

// Reads from the data on.
#[tactic(auto, unfolding(message_rules::specs::Data::data_read, message_rules::specs::Data::data_message, message_rules::specs::Answer::verdict_result, message_rules::specs::Answer::require, message_rules::specs::Answer::after, message_rules::specs::Answer::within, message_rules::specs::Answer::counted, message_rules::specs::Answer::output_after, message_rules::specs::Answer::read_result, message_rules::specs::Answer::write_result))]
fn read_data(kind: Kind, id: u8, data: &[u8], out: &mut [u8]) -> Result<(Message, usize), Refusal>
    ensures result_value { read_result result ≡ counted (within out.old (data_read kind id 0 0 «data».now)) }
    ensures out_after { out.new ≡ output_after (within out.old (data_read kind id 0 0 «data».now)) out.old }
{
    let raw = Message {
        kind,
        id,
        source: 0,
        destination: 0,
        error: Some(byte_or_zero(data, 0)),
        index: byte_or_zero(data, 1),
    };
    let message = message_fields::error_fields_carried(raw);
    message_checks::check_data(message, data.len())?;
    let payload = &data[message_kinds::error_length(kind)..];
    Ok((message, message_output::put(payload, out)?))
}

fn byte_or_zero(bytes: &[u8], at: usize) -> u8
    ensures { result ≡ get_or bytes.now at 0 }
{
    bytes.get(at).copied().unwrap_or(0)
}

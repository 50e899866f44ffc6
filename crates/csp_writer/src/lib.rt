// Writing messages as the data of a CSP packet. The rules are `csp_rules`'s.
//
// Everything is decided before the first byte is stored, so a refusal leaves the lent output as it came.
#![tactic(auto)]

ghost use Rattle.std.specs.Prelude.{◌+◌, ◌≤◌, ◌++◌, ◌≡◌, drop, length};
ghost use Rattle.message_rules.specs.Answer.{write_result, within, counted, output_after, written};
ghost use Rattle.message_rules.specs.Kinds.{error_length};
ghost use Rattle.csp_rules.specs.Csp.{csp_head, csp_write};

use message_rules::{Carries, Message, Refusal};

// Writes a message with its payload to the start of out.
#[tactic(auto, unfolding(csp_rules::specs::Csp::csp_write, message_rules::specs::Answer::verdict_result, message_rules::specs::Answer::after, message_rules::specs::Answer::within, message_rules::specs::Answer::counted, message_rules::specs::Answer::output_after, message_rules::specs::Answer::write_result))]
pub fn write(message: Message, payload: &[u8], out: &mut [u8]) -> Result<usize, Refusal>
    ensures result_value { write_result result ≡ counted (within out.old (csp_write message payload.now)) }
    ensures out_after { out.new ≡ output_after (within out.old (csp_write message payload.now)) out.old }
{
    let carries = Carries {
        events: false,
        errors: true,
    };
    message_checks::check_written(carries, message, payload.len())?;
    write_checked(message, payload, out)
}

// Writes a message that passed its checks: the payload where it goes, then what stands in front of it.
#[tactic(auto, unfolding(message_rules::specs::Answer::require, message_rules::specs::Answer::after, message_rules::specs::Answer::within, message_rules::specs::Answer::counted, message_rules::specs::Answer::output_after, message_rules::specs::Answer::write_result), using(crate::proofs::Heads::head_length))]
fn write_checked(message: Message, payload: &[u8], out: &mut [u8]) -> Result<usize, Refusal>
    ensures result_value { write_result result ≡ counted (within out.old (written (csp_head message ++ payload.now))) }
    ensures out_after { out.new ≡ output_after (within out.old (written (csp_head message ++ payload.now))) out.old }
{
    let head = 2 + message_kinds::error_length(message.kind);
    if out.len() < head {
        return Err(Refusal::OutputTooShort);
    }
    let size = message_output::put(payload, &mut out[head..])?;
    put_head(message, out);
    Ok(head + size)
}

// Stores the type, the ID, and what tells the error. Measured, of an acknowledgement: with one copy, of a length that is known only as it runs,
// the whole call takes a quarter more time.
fn put_head(message: Message, out: &mut [u8])
    requires { 2 + error_length message.kind ≤ length out.old }
    ensures { out.new ≡ csp_head message ++ drop (length (csp_head message)) out.old }
{
    let number = message_kinds::type_number(message.kind);
    let error = message_fields::error_number(message.error);
    match message_kinds::error_length(message.kind) {
        0 => out[..2].copy_from_slice(&[number, message.id]),
        1 => out[..3].copy_from_slice(&[number, message.id, error]),
        _ => out[..4].copy_from_slice(&[number, message.id, error, message.index]),
    }
}

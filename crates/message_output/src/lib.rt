// Puts bytes, unchanged, into a lent output.
#![tactic(auto)]

ghost use Rattle.std.specs.Prelude.{◌≡◌};
ghost use Rattle.message_rules.specs.Answer.{write_result, within, counted, output_after, written};

use message_rules::Refusal;

// Puts bytes over the start of a lent output, or refuses where it is shorter than they are.
#[tactic(auto, unfolding(message_rules::specs::Answer::write_result, message_rules::specs::Answer::within, message_rules::specs::Answer::counted, message_rules::specs::Answer::output_after, message_rules::specs::Answer::require, message_rules::specs::Answer::after))]
pub fn put(bytes: &[u8], out: &mut [u8]) -> Result<usize, Refusal>
    ensures result_value { write_result result ≡ counted (within out.old (written bytes.now)) }
    ensures out_after { out.new ≡ output_after (within out.old (written bytes.now)) out.old }
{
    if out.len() < bytes.len() {
        return Err(Refusal::OutputTooShort);
    }
    // Measured, of an acknowledgement on CSP, which has no payload: `copy_from_slice` takes a fifth more time.
    for (i, b) in bytes.iter().enumerate() {
        out[i] = *b;
    }
    Ok(bytes.len())
}

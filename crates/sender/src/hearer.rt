// The answer of a round.
ghost use Rattle.std.specs.Prelude.{◌≡◌};
ghost use Rattle.message_rules.specs.Answer.{value_result};
ghost use Rattle.link_rules.specs.Link.{link_read};
ghost use Rattle.sender_rules.specs.Hearing.{meaning, hear};

use crate::checks;
use message_rules::Refusal;
use sender_rules::{Meaning, Sender};

// Takes the answer's bytes, none where there was no answer, and counts the round.
#[tactic(auto, unfolding(message_rules::specs::Answer::value_result, message_rules::specs::Answer::verdict_result, message_rules::specs::Answer::require, message_rules::specs::Answer::after, sender_rules::specs::Sender::same_file, sender_rules::specs::Hearing::hear))]
pub fn hear(sender: Sender, file: &[u8], answer: &[u8]) -> Result<Sender, Refusal>
    ensures { value_result result ≡ hear sender file.now answer.now }
{
    if !checks::is_running(sender) {
        return Ok(sender);
    }
    checks::same_file(sender, file)?;
    Ok(sender_stages::round_over(sender, meaning(sender, file, answer)))
}

// What the answer's bytes mean, none where there was no answer.
fn meaning(sender: Sender, file: &[u8], answer: &[u8]) -> Meaning
    ensures { result ≡ meaning sender file.now (link_read sender.link answer.now) }
{
    let mut payload = [0; 256];
    let Ok((message, length)) = link_reader::read(sender.link, answer, &mut payload) else {
        return Meaning::Stay;
    };
    sender_answers::message_meaning(sender, file, message, &payload[..length])
}

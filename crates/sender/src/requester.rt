// The request of a round.
ghost use Rattle.std.specs.Prelude.{◌≡◌};
ghost use Rattle.message_rules.specs.Answer.{within, counted, output_after, about};
ghost use Rattle.link_rules.specs.Link.{link_write};
ghost use Rattle.round_rules.specs.Requester.{sent};
ghost use Rattle.sender_rules.specs.Sender.{request, request_message, request_result};

use crate::checks;
use message_rules::Refusal;
use sender_rules::{Sender, Stage};

// Writes the request of the sender's stage to the start of out. It changes nothing of the sender.
#[tactic(auto, unfolding(message_rules::specs::Answer::verdict_result, message_rules::specs::Answer::require, message_rules::specs::Answer::after, message_rules::specs::Answer::within, message_rules::specs::Answer::counted, message_rules::specs::Answer::output_after, sender_rules::specs::Sender::same_file, sender_rules::specs::Sender::request, sender_rules::specs::Sender::request_result, sender_rules::specs::Sender::request_payload, file_rules::specs::Setup::setup_payload, little_endian_rules::specs::LittleEndian::to_bytes))]
pub fn request(sender: Sender, file: &[u8], out: &mut [u8]) -> Result<Option<usize>, Refusal>
    ensures result_value { request_result result ≡ counted (within out.old (request sender file.now)) }
    ensures out_after { out.new ≡ output_after (within out.old (request sender file.now)) out.old }
{
    if !checks::is_running(sender) {
        return Ok(None);
    }
    checks::same_file(sender, file)?;
    match (sender.stage, sender.job) {
        (Stage::Setup, Some(number)) => send(sender, &file_setup::write(sender.size, number), out),
        (Stage::Frame | Stage::Back, _) => {
            send(sender, file_frames::file_frame(file, sender.frame), out)
        }
        (Stage::Take, _) => send(sender, &little_endian::u32_to_bytes(sender.frame)[..2], out),
        (Stage::Setup | Stage::Compare | Stage::Confirm, _) => send(sender, &[], out),
    }
}

// Writes the request of the sender's stage with what it carries.
fn send(sender: Sender, payload: &[u8], out: &mut [u8]) -> Result<Option<usize>, Refusal>
    ensures result_value { request_result result ≡ counted (within out.old (about sent (link_write sender.link (request_message sender) payload.now))) }
    ensures out_after { out.new ≡ output_after (within out.old (about sent (link_write sender.link (request_message sender) payload.now))) out.old }
{
    let message = sender_state::request_message(sender);
    link_writer::write(sender.link, message, payload, out).map(Some)
}

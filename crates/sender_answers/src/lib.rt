// What an answer means to the sender at its stage (document 01, "The sender and its rounds").
#![tactic(auto)]

mod info;

ghost use Rattle.std.specs.Prelude.{◌≡◌};
ghost use Rattle.message_rules.specs.Answer.{given};
ghost use Rattle.link_rules.specs.Link.{carries_addresses};
ghost use Rattle.sender_rules.specs.Hearing.{fits, ack_meaning, nack_meaning, meaning};

use link_rules::Link;
use message_rules::{Kind, Message};
use sender_rules::{Meaning, Sender, Stage};

// What a message that was read as the answer means.
#[tactic(auto, unfolding(sender_rules::specs::Hearing::meaning, sender_rules::specs::Hearing::kind_meaning))]
pub fn message_meaning(sender: Sender, file: &[u8], message: Message, payload: &[u8]) -> Meaning
    ensures { result ≡ meaning sender file.now (given message payload.now) }
{
    if !fits(sender, message) {
        return Meaning::Stay;
    }
    match message.kind {
        Kind::TelecommandAck => ack_meaning(sender.stage),
        Kind::TelecommandNack => nack_meaning(sender.stage, message.error),
        Kind::TelemetryResponse => info::info_meaning(sender.stage, file, sender.frame, payload),
        Kind::Telecommand | Kind::TelemetryRequest | Kind::TelemetryNack | Kind::Event =>
            Meaning::Stay,
    }
}

// The answer is one to the sender's request.
#[tactic(auto, unfolding(sender_rules::specs::Hearing::fits, sender_rules::specs::Sender::request_message))]
fn fits(sender: Sender, message: Message) -> bool
    ensures { result ≡ fits sender message }
{
    let request = sender_state::request_message(sender);
    if message.id != request.id {
        return false;
    }
    if !carries_addresses(sender.link) {
        return true;
    }
    message.destination == request.source && message.source == request.destination
}

#[tactic(auto, unfolding(link_rules::specs::Link::carries_addresses))]
fn carries_addresses(link: Link) -> bool
    ensures { result ≡ carries_addresses link }
{
    matches!(link, Link::Rs485 | Link::Can)
}

#[tactic(auto, unfolding(sender_rules::specs::Hearing::ack_meaning))]
fn ack_meaning(stage: Stage) -> Meaning
    ensures { result ≡ ack_meaning stage }
{
    match stage {
        Stage::Setup | Stage::Frame | Stage::Back | Stage::Take => Meaning::Forward,
        Stage::Compare | Stage::Confirm => Meaning::Stay,
    }
}

// A nack of take frame that is not told leads on, and so do 3, where the frame is stored and its answer was lost, and 6, where it is pending.
#[tactic(auto, unfolding(sender_rules::specs::Hearing::nack_meaning, sender_rules::specs::Hearing::taken_error))]
fn nack_meaning(stage: Stage, error: Option<u8>) -> Meaning
    ensures { result ≡ nack_meaning stage error }
{
    match (stage, error) {
        (Stage::Take, None | Some(3 | 6)) => Meaning::Forward,
        _ => Meaning::Stay,
    }
}

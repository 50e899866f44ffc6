// The sender's state (document 01, "The sender and its rounds"): starting it, and what is read from it, the fields of its request and the
// frames that are known to be stored. The type stands in the crate `sender_rules`, with the rules.
#![tactic(auto)]

mod starter;

ghost use Rattle.std.specs.Prelude.{◌≡◌};
ghost use Rattle.sender_rules.specs.Sender.{request_kind, request_id, request_message, frames_known};

use message_rules::{Kind, Message};
use round_rules::State;
use sender_rules::{Sender, Stage};
pub use starter::start;

// The request of the stage that the sender is at, without what it carries.
#[tactic(auto, unfolding(sender_rules::specs::Sender::request_message))]
pub fn request_message(sender: Sender) -> Message
    ensures { result ≡ request_message sender }
{
    Message {
        kind: request_kind(sender.stage),
        id: request_id(sender.stage),
        source: sender.source,
        destination: sender.destination,
        error: Some(0),
        index: 0,
    }
}

fn request_kind(stage: Stage) -> Kind
    ensures { result ≡ request_kind stage }
{
    match stage {
        Stage::Setup | Stage::Frame | Stage::Back | Stage::Take => Kind::Telecommand,
        Stage::Compare | Stage::Confirm => Kind::TelemetryRequest,
    }
}

fn request_id(stage: Stage) -> u8
    ensures { result ≡ request_id stage }
{
    match stage {
        Stage::Setup => 20,
        Stage::Frame | Stage::Back => 22,
        Stage::Take => 21,
        Stage::Compare | Stage::Confirm => 150,
    }
}

// The frames that are known to be stored: those before the one that it is at, and that one too once it has finished. It is a u64, since the
// count of a sender with the last frame number of 32 bits has no place there.
#[tactic(auto, unfolding(sender_rules::specs::Sender::frames_known))]
pub fn frames_known(sender: Sender) -> u64
    ensures { result ≡ frames_known sender }
{
    let before = u64::from(sender.frame);
    match sender.state {
        State::Running | State::GivenUp => before,
        State::Finished => before + 1,
    }
}

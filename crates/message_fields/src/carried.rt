// What tells the error, as the kind carries it. The rules are definitions of `message_rules`: `Kinds`.
ghost use Rattle.std.specs.Prelude.{true, ◌≡◌};
ghost use Rattle.message_rules.specs.Kinds.{error_carried, index_carried, error_fields_carried};

use message_kinds::error_length;
use message_rules::{Kind, Message};

// The message with 0 in place of an error byte or index that its kind does not carry.
pub fn error_fields_carried(message: Message) -> Message
    ensures { result ≡ error_fields_carried message }
{
    Message {
        error: error_carried(message.kind, message.error),
        index: index_carried(message.kind, message.index),
        ..message
    }
}

#[tactic(auto, unfolding(message_rules::specs::Kinds::error_carried))]
fn error_carried(kind: Kind, error: Option<u8>) -> Option<u8>
    ensures { result ≡ error_carried true kind error }
{
    if error_length(kind) < 1 {
        Some(0)
    } else {
        error
    }
}

#[tactic(auto, unfolding(message_rules::specs::Kinds::index_carried))]
fn index_carried(kind: Kind, index: u8) -> u8
    ensures { result ≡ index_carried true kind index }
{
    if error_length(kind) < 2 { 0 } else { index }
}

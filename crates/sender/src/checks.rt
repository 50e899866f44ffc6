// What both calls look at first: whether the sender goes on, and the file that it is lent.
ghost use Rattle.std.specs.Prelude.{◌≡◌};
ghost use Rattle.message_rules.specs.Answer.{verdict_result};
ghost use Rattle.round_rules.specs.Requester.{is_running};
ghost use Rattle.sender_rules.specs.Sender.{same_file};

use message_rules::Refusal;
use round_rules::State;
use sender_rules::Sender;

pub(crate) fn is_running(sender: Sender) -> bool
    ensures { result ≡ is_running sender.state }
{
    sender.state == State::Running
}

// The file still has the length that the sender was started with.
#[tactic(auto, unfolding(message_rules::specs::Answer::verdict_result, message_rules::specs::Answer::require, sender_rules::specs::Sender::same_file))]
pub(crate) fn same_file(sender: Sender, file: &[u8]) -> Result<(), Refusal>
    ensures { verdict_result result ≡ same_file sender file.now }
{
    if file.len() != sender.size as usize {
        return Err(Refusal::IllegalFileSize);
    }
    Ok(())
}

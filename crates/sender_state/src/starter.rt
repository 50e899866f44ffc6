// Starting a sender.
ghost use Rattle.std.specs.Prelude.{◌≡◌};
ghost use Rattle.message_rules.specs.Answer.{value_result};
ghost use Rattle.sender_rules.specs.Sender.{first_stage, addresses_legal, start};

use link_rules::Link;
use message_rules::Refusal;
use round_rules::State;
use sender_rules::{Sender, Stage};

// Starts a sender for a file of this size, with a job or without. The size is a usize, as a slice's length is, so that no caller has to narrow it before it is looked at.
#[tactic(auto, unfolding(message_rules::specs::Answer::require, message_rules::specs::Answer::after, message_rules::specs::Answer::value_result, sender_rules::specs::Sender::start, sender_rules::specs::Sender::new_sender, file_rules::specs::File::size_legal))]
pub fn start(
    link: Link,
    source: u8,
    destination: u8,
    size: usize,
    job: Option<u32>,
) -> Result<Sender, Refusal>
    ensures { value_result result ≡ start link source destination size job }
{
    if !file_frames::size_legal(size) {
        return Err(Refusal::IllegalFileSize);
    }
    if !addresses_legal(link, source, destination) {
        return Err(Refusal::IllegalValue);
    }
    Ok(Sender {
        link,
        source,
        destination,
        size: size as u32,
        job,
        frame: 0,
        stage: first_stage(job),
        since: 0,
        rounds: 0,
        state: State::Running,
    })
}

fn first_stage(job: Option<u32>) -> Stage
    ensures { result ≡ first_stage job }
{
    match job {
        None => Stage::Frame,
        Some(_) => Stage::Setup,
    }
}

#[tactic(auto, unfolding(sender_rules::specs::Sender::addresses_legal))]
fn addresses_legal(link: Link, source: u8, destination: u8) -> bool
    ensures { result ≡ addresses_legal link source destination }
{
    match link {
        Link::Rs485 => 0 < source && 0 < destination,
        Link::Uart | Link::Can | Link::Csp => true,
    }
}

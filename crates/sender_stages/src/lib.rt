// The stages of the sender (document 01, "The sender and its rounds"): what a round does to it.
#![tactic(auto)]

mod table;

ghost use Rattle.std.specs.Prelude.{◌≡◌};
ghost use Rattle.sender_rules.specs.Hearing.{changed, one_more, waited, advanced, round_over};

use round_rules::State;
use sender_rules::{Meaning, Sender, Stage};

// The sender after a round with an answer that means this. The error flag gives up at once. Any step but that from A again is the first arrival at a
// stage: only A again leads to a B that was arrived at before.
#[tactic(auto, unfolding(sender_rules::specs::Hearing::round_over))]
pub fn round_over(sender: Sender, meaning: Meaning) -> Sender
    ensures { result ≡ round_over sender meaning }
{
    match meaning {
        Meaning::Stay => waited(sender, sender.stage),
        Meaning::Forward if sender.stage == Stage::Back => waited(sender, Stage::Compare),
        Meaning::Forward => advanced(sender),
        Meaning::Differs => waited(sender, Stage::Back),
        Meaning::Flagged => changed(
            sender,
            sender.frame,
            sender.stage,
            one_more(sender),
            State::GivenUp,
        ),
    }
}

// A round without a step forward; the fiftieth in a row is the last.
#[tactic(auto, unfolding(sender_rules::specs::Hearing::waited))]
fn waited(sender: Sender, stage: Stage) -> Sender
    ensures { result ≡ waited sender stage }
{
    let state = if sender.since < 49 {
        State::Running
    } else {
        State::GivenUp
    };
    changed(sender, sender.frame, stage, one_more(sender), state)
}

// The rounds since the last step forward, with this one: fifty at most.
#[tactic(auto, unfolding(sender_rules::specs::Hearing::one_more))]
fn one_more(sender: Sender) -> u8
    ensures { result ≡ one_more sender }
{
    sender.since.min(49) + 1
}

// A step forward: the next stage of the frame; past D the next frame, or the finish after the last.
#[tactic(auto, unfolding(sender_rules::specs::Hearing::advanced, sender_rules::specs::Hearing::has_next))]
fn advanced(sender: Sender) -> Sender
    ensures { result ≡ advanced sender }
{
    if sender.stage != Stage::Confirm {
        let next = table::next_stage(sender.stage);
        return changed(sender, sender.frame, next, 0, State::Running);
    }
    if sender.frame as u64 + 1 < file_frames::frame_count(sender.size) as u64 {
        return changed(sender, sender.frame + 1, Stage::Frame, 0, State::Running);
    }
    changed(sender, sender.frame, Stage::Confirm, 0, State::Finished)
}

// The sender with these in place of its own, and one round more.
fn changed(sender: Sender, frame: u32, stage: Stage, since: u8, state: State) -> Sender
    ensures { result ≡ changed sender frame stage since state }
{
    Sender {
        frame,
        stage,
        since,
        rounds: sender.rounds.wrapping_add(1),
        state,
        ..sender
    }
}

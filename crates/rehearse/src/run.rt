// The rounds of an upload, one after the other.
ghost use Rattle.std.specs.Prelude.{◌≡◌, true};
ghost use Rattle.round_rules.specs.Requester.{is_running};
ghost use Rattle.rehearse.specs.Rounds.{Leaves, run_over};

use crate::course::Course;
use crate::{course, progress};
use device::Device;
use message_rules::Refusal;
use round_rules::State;
use sender_rules::Sender;
use std::io::{IsTerminal, Print};

// Two hundred rounds for each of 65,535 frames, and fifty for the setup: every sender has ended by then.
const MOST: u32 = 13107050;

// What rounds leave: unit and sender, whether all of them passed, and how many were made. The first that is refused is the last.
#[derive(Clone, Copy)]
pub struct Ran {
    pub device: Device,
    pub sender: Sender,
    pub verdict: Result<(), Refusal>,
    pub count: u32,
}

// Makes the rounds of a course until the sender ends, with its file and the unit's store.
pub(crate) fn run(
    errors: &(impl Print + IsTerminal),
    unit: Device,
    first: Sender,
    course: Course,
    file: &[u8],
    store: &mut [u8],
) -> Ran
    ensures leaves { Leaves file.now unit store.old first course result store.new }
    ensures result_value { run_over result ≡ true }
{
    let mut device = unit;
    let mut sender = first;
    for count in 0..MOST {
        if !runs(sender) {
            return ended(device, sender, Ok(()), count);
        }
        let rounded = upload_round::round(
            device,
            sender,
            course::round(course, count),
            file,
            store,
        );
        device = rounded.device;
        sender = rounded.sender;
        if let Err(refusal) = rounded.verdict {
            return ended(device, sender, Err(refusal), count + 1);
        }
        progress::show(errors, sender);
    }
    ended(device, sender, Ok(()), MOST)
}

fn ended(device: Device, sender: Sender, verdict: Result<(), Refusal>, count: u32) -> Ran
    ensures { result ≡ record { device = device; sender = sender; verdict = verdict; count = count } }
{
    Ran {
        device,
        sender,
        verdict,
        count,
    }
}

#[tactic(auto, unfolding(round_rules::specs::Requester::is_running))]
fn runs(sender: Sender) -> bool
    ensures { result ≡ is_running sender.state }
{
    sender.state == State::Running
}

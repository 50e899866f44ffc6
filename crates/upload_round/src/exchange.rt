// The exchange of a round. Request and answer go through an array of 522 bytes each, which every message of every link fits. A function takes those of
// unit, sender, file and store alone that its part needs, so that no part holds a copy of the others.
ghost use Rattle.std.specs.Prelude.{◌≡◌, length};
ghost use Rattle.round_rules.specs.Schedule.{output};
ghost use Rattle.upload_round.specs.Ends.{Requested, Exchanged, Arrived, Heard, Stopped};

use crate::Rounded;
use device::{Device, Received};
use message_rules::Refusal;
use round_rules::Fate;
use sender_rules::Sender;

// The sender's request, and what becomes of it. A sender that has ended sends none, and the round is over.
pub(crate) fn requested(
    device: Device,
    sender: Sender,
    fate: Fate,
    file: &[u8],
    store: &[u8],
) -> Rounded
    ensures { Requested result device sender fate file.now store.now }
{
    let mut request = [0; 522];
    match sender::request(sender, file, &mut request) {
        Ok(Some(n)) => sent(device, sender, file, store, &request[..n], fate),
        Ok(None) => Rounded {
            device,
            sender,
            verdict: Ok(()),
        },
        Err(refusal) => stopped(device, sender, refusal),
    }
}

// What becomes of a written request: its arrivals at the unit, and then the sender's answer call.
fn sent(
    device: Device,
    sender: Sender,
    file: &[u8],
    store: &[u8],
    request: &[u8],
    fate: Fate,
) -> Rounded
    ensures { Exchanged result device sender fate file.now store.now request.now }
{
    let mut answer = [0; 522];
    let received = arrivals(device, fate, store, request, &mut answer);
    match received.outcome {
        Ok(Some(n)) => heard(received.device, sender, file, &answer[..n]),
        Ok(None) => heard(received.device, sender, file, &[]),
        Err(refusal) => stopped(received.device, sender, refusal),
    }
}

// The arrivals of a request at the unit: none, one or two. Gives the unit afterwards and what comes back to the sender: an answer, at the start of answer,
// nothing, or a refusal. Where the answer is lost a refusal alone is left of an outcome; where the request arrives twice the second answer takes the place
// of the first.
fn arrivals(device: Device, fate: Fate, store: &[u8], request: &[u8], answer: &mut [u8]) -> Received
    requires { length answer.old ≡ length output }
    ensures { Arrived result answer.new device fate store.now request.now }
{
    match fate {
        Fate::Delivered => device::receive(device, request, store, answer),
        Fate::RequestLost => Received {
            device,
            outcome: Ok(None),
        },
        Fate::AnswerLost => {
            let received = device::receive(device, request, store, answer);
            Received {
                outcome: received.outcome.map(|_| None),
                ..received
            }
        }
        Fate::Twice => {
            let first = device::receive(device, request, store, answer);
            if first.outcome.is_err() {
                return first;
            }
            device::receive(first.device, request, store, answer)
        }
    }
}

// The sender's answer call, with the bytes that it hears, none where the request or its answer was lost or the unit gave none. A refused call leaves the
// sender as it came.
fn heard(device: Device, sender: Sender, file: &[u8], answer: &[u8]) -> Rounded
    ensures { Heard result device sender file.now answer.now }
{
    let next = sender::hear(sender, file, answer);
    Rounded {
        device,
        sender: next.unwrap_or(sender),
        verdict: next.map(|_| ()),
    }
}

// A round that a refused call ended.
fn stopped(device: Device, sender: Sender, refusal: Refusal) -> Rounded
    ensures { Stopped result device sender refusal }
{
    Rounded {
        device,
        sender,
        verdict: Err(refusal),
    }
}

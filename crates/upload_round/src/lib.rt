// One round between a sender and a unit (document 01, "The sender and its rounds"): the work step, done or not, then one exchange, by the
// calls of the crates `device` and `sender`. A program that has both sides, as a test or a rehearsal on the ground, runs an upload with it.
//
// What a round comes to is `round_made` and `round_refusal` of `specs/Rounds.antt` in `round_rules`, over the calls that demand 3 is proved of.
#![tactic(auto)]

mod exchange;

ghost use Rattle.std.specs.Prelude.{◌≡◌};
ghost use Rattle.message_rules.specs.Answer.{verdict_result};
ghost use Rattle.round_rules.specs.Rounds.{nothing_sent, round_made, round_refusal};
ghost use Rattle.sender_rules.specs.Sending.{sending};

use device::Device;
use message_rules::Refusal;
use round_rules::Round;
use sender_rules::Sender;

// What a round leaves: unit and sender, and whether each of its calls passed. The first that is refused ends the round, and what the calls
// before it did stays.
#[derive(Clone, Copy)]
pub struct Rounded {
    pub device: Device,
    pub sender: Sender,
    pub verdict: Result<(), Refusal>,
}

// Runs a round with the unit's store and the sender's file.
pub fn round(device: Device, sender: Sender, round: Round, file: &[u8], store: &mut [u8]) -> Rounded
    ensures verdict_value { verdict_result result.verdict ≡ round_refusal (sending file.now) (nothing_sent device store.old sender) round }
    ensures device_value { result.device ≡ (round_made (sending file.now) (nothing_sent device store.old sender) round).device }
    ensures sender_value { result.sender ≡ (round_made (sending file.now) (nothing_sent device store.old sender) round).requester }
    ensures store_after { store.new ≡ (round_made (sending file.now) (nothing_sent device store.old sender) round).store }
{
    if !round.worked {
        return exchange::requested(device, sender, round.fate, file, store);
    }
    match device::work(device, store) {
        Ok(next) => exchange::requested(next, sender, round.fate, file, store),
        // Made in place: a function that is given the unit would copy it.
        Err(refusal) => Rounded {
            device,
            sender,
            verdict: Err(refusal),
        },
    }
}

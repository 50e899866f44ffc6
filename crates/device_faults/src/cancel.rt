// Cancel: its only fault is a payload.
ghost use Rattle.std.specs.Prelude.{◌≡◌};
ghost use Rattle.device_rules.specs.Faults.{cancel_fault};

use device_rules::Fault;

#[tactic(auto, unfolding(device_rules::specs::Faults::fault, device_rules::specs::Faults::cancel_fault))]
pub(crate) fn cancel_fault(payload: &[u8]) -> Option<Fault>
    ensures { result ≡ cancel_fault payload.now }
{
    if !payload.is_empty() {
        return Some(Fault::Nack(2, 0));
    }
    None
}

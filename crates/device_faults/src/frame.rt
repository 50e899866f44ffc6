// Frame: its faults.
ghost use Rattle.std.specs.Prelude.{◌≡◌};
ghost use Rattle.device_rules.specs.Faults.{frame_fault};

use device_rules::{Fault, Phase, Transfer};

#[tactic(auto, unfolding(device_rules::specs::Faults::fault, device_rules::specs::Faults::frame_fault))]
pub(crate) fn frame_fault(transfer: Transfer, payload: &[u8]) -> Option<Fault>
    ensures { result ≡ frame_fault transfer payload.now }
{
    if payload.is_empty() || 256 < payload.len() {
        return Some(Fault::Nack(2, 0));
    }
    if transfer.phase != Phase::Open {
        return Some(Fault::Nack(7, 0));
    }
    if transfer.pending {
        return Some(Fault::Nack(6, 0));
    }
    None
}

// Setup: its faults, in the order of document 02.
ghost use Rattle.std.specs.Prelude.{◌≡◌};
ghost use Rattle.file_rules.specs.Setup.{setup_read};
ghost use Rattle.device_rules.specs.Faults.{is_repeat, setup_fault};

use device_rules::{Device, Fault, Phase, Transfer};
use file_rules::Announcement;

#[tactic(auto, unfolding(device_rules::specs::Faults::fault, device_rules::specs::Faults::setup_fault))]
pub(crate) fn setup_fault(device: Device, store: usize, payload: &[u8]) -> Option<Fault>
    ensures { result ≡ setup_fault device store (setup_read payload.now) }
{
    let Some(Announcement { size, number }) = file_setup::read(payload) else {
        return Some(Fault::Nack(2, 0));
    };
    if is_repeat(device.transfer, size, number) {
        return Some(Fault::Repeat);
    }
    if device.transfer.pending {
        return Some(Fault::Nack(6, 0));
    }
    if device.transfer.phase == Phase::Open {
        return Some(Fault::Nack(7, 0));
    }
    if device.finished == Some(number) {
        return Some(Fault::Nack(7, 0));
    }
    if !file_frames::size_legal(size as usize) || store < size as usize {
        return Some(Fault::Nack(3, 0));
    }
    None
}

// The open job decides, whatever the phase is.
#[tactic(auto, unfolding(device_rules::specs::Faults::is_repeat))]
fn is_repeat(transfer: Transfer, size: u32, number: u32) -> bool
    ensures { result ≡ is_repeat transfer size number }
{
    transfer.job == Some(number) && size == transfer.size
}

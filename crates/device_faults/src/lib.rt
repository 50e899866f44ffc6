// Why a command is not carried out (document 01, "The unit", its table): a file for each command, and all of them by ID.
#![tactic(auto)]

mod cancel;
mod frame;
mod setup;
mod take;

ghost use Rattle.std.specs.Prelude.{◌≡◌};
ghost use Rattle.device_rules.specs.Faults.{command_fault};

use device_rules::{Device, Fault};

// The fault of a command by its ID, while a store of so many bytes is lent. The ID stays the message's byte: any other is a fault too.
#[tactic(auto, unfolding(device_rules::specs::Faults::command_fault))]
pub fn command_fault(device: Device, store: usize, id: u8, payload: &[u8]) -> Option<Fault>
    ensures { result ≡ command_fault device store id payload.now }
{
    match id {
        20 => setup::setup_fault(device, store, payload),
        21 => take::take_fault(device.transfer, payload),
        22 => frame::frame_fault(device.transfer, payload),
        23 => cancel::cancel_fault(payload),
        _ => Some(Fault::Nack(1, 0)),
    }
}

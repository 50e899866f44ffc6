// A unit at first, without a transfer, and the frame that a transfer's buffer holds.
#![tactic(auto)]

ghost use Rattle.std.specs.Prelude.{◌≡◌, ◌≤◌, length};
ghost use Rattle.message_rules.specs.Answer.{value_result};
ghost use Rattle.device_rules.specs.Device.{buffered_frame, no_transfer, make};

use device_rules::{Device, Phase, Transfer};
use link_rules::Link;
use message_rules::Refusal;

// How many bytes the frame in the buffer has: no more than the buffer.
#[tactic(auto, unfolding(device_rules::specs::Device::buffered_frame))]
pub fn buffered_length(transfer: Transfer) -> usize
    ensures length_value { result ≡ length (buffered_frame transfer) }
    ensures at_most { result ≤ 256 }
{
    (transfer.buffered as usize).min(256)
}

// No transfer: so is a unit at first, and after a cancel.
#[tactic(auto, unfolding(device_rules::specs::Device::no_transfer))]
pub fn no_transfer() -> Transfer
    ensures { result ≡ no_transfer }
{
    Transfer {
        phase: Phase::Idle,
        number: 0xFFFF,
        buffer: [0u8; 256],
        buffered: 0,
        pending: false,
        size: 0,
        stored: 0,
        job: None,
    }
}

// A unit at first, with its own address, which is not 0.
#[tactic(auto, unfolding(message_rules::specs::Answer::value_result, device_rules::specs::Device::make, device_rules::specs::Device::new_device))]
pub fn make(link: Link, own: u8) -> Result<Device, Refusal>
    ensures { value_result result ≡ make link own }
{
    if own == 0 {
        return Err(Refusal::IllegalValue);
    }
    Ok(Device {
        link,
        own,
        transfer: no_transfer(),
        finished: None,
    })
}

// The commands of the unit (document 01, "The unit"): what each does to the transfer, and a command carried out by its ID.
#![tactic(auto)]

ghost use Rattle.std.specs.Prelude.{◌≤◌, ◌≡◌, length};
ghost use Rattle.device_rules.specs.Faults.{command_fault};
ghost use Rattle.device_rules.specs.Commands.{new_transfer, frame_done, transfer_done, after_command};

use device_rules::{Device, Phase, Transfer};

// The unit after a command, which is carried out unless it has a fault; a store of so many bytes is lent. What is not the transfer's stays.
#[tactic(auto, unfolding(device_rules::specs::Commands::after_command, device_rules::specs::Commands::command_done, device_rules::specs::Faults::command_fault, device_rules::specs::Faults::frame_fault, device_rules::specs::Faults::fault))]
pub fn after_command(device: Device, store: usize, id: u8, payload: &[u8]) -> Device
    ensures { result ≡ after_command device id payload.now (command_fault device store id payload.now) }
{
    match device_faults::command_fault(device, store, id, payload) {
        None => Device {
            transfer: transfer_done(device.transfer, id, payload),
            ..device
        },
        Some(_) => device,
    }
}

// The transfer after a command without a fault, by its ID: take frame makes the frame in the buffer wait for the work step, and cancel leaves no transfer.
#[tactic(auto, unfolding(device_rules::specs::Commands::transfer_done, device_rules::specs::Commands::setup_done, device_rules::specs::Commands::take_done))]
fn transfer_done(transfer: Transfer, id: u8, payload: &[u8]) -> Transfer
    requires { id ≡ 22 → length payload.now ≤ 256 }
    ensures { result ≡ transfer_done transfer id payload.now }
{
    match id {
        20 => file_setup::read(payload).map_or(
            transfer,
            |said| new_transfer(said.size, said.number),
        ),
        21 => Transfer {
            pending: true,
            ..transfer
        },
        22 => frame_done(transfer, payload),
        _ => device_state::no_transfer(),
    }
}

// Setup: a new transfer, of a file of the size that it says and for its job.
#[tactic(auto, unfolding(device_rules::specs::Commands::new_transfer, device_rules::specs::Device::no_transfer))]
fn new_transfer(size: u32, number: u32) -> Transfer
    ensures { result ≡ new_transfer size number }
{
    Transfer {
        phase: Phase::Open,
        size,
        job: Some(number),
        ..device_state::no_transfer()
    }
}

// Frame: bytes for the buffer.
#[tactic(auto, unfolding(device_rules::specs::Commands::frame_done))]
fn frame_done(transfer: Transfer, payload: &[u8]) -> Transfer
    requires { length payload.now ≤ 256 }
    ensures { result ≡ frame_done transfer payload.now }
{
    let mut buffer = [0; 256];
    buffer[..payload.len()].copy_from_slice(payload);
    Transfer {
        buffer,
        buffered: payload.len() as u16,
        ..transfer
    }
}

// The work step (document 01, "The unit"): a pending frame goes after what is stored.
#![tactic(auto)]

ghost use Rattle.std.specs.Prelude.{◌≡◌, ◌+◌, ◌≤◌, length, MatchResult};
ghost use Rattle.message_rules.specs.Answer.{value_result};
ghost use Rattle.device_rules.specs.Device.{buffered_frame};
ghost use Rattle.device_rules.specs.Work.{unit_stored, has_room, work, without_bytes, after_work, store_after};

use device_rules::{Device, Phase, Transfer};
use message_rules::Refusal;

// Stores a pending frame, and gives the unit afterwards; with nothing pending it does nothing. After a refusal the unit is the one that came.
#[tactic(auto, using(device_rules::proofs::Works::room), unfolding(message_rules::specs::Answer::require, message_rules::specs::Answer::after, message_rules::specs::Answer::value_result, device_rules::specs::Work::work, device_rules::specs::Work::without_bytes, device_rules::specs::Work::after_work, device_rules::specs::Work::store_after))]
pub fn work(device: Device, store: &mut [u8]) -> Result<Device, Refusal>
    ensures device_value { value_result result ≡ without_bytes (work device (length store.old)) }
    ensures unit_after { MatchResult result (λ next. next ≡ after_work device (work device (length store.old))) (λ refusal. device ≡ after_work device (work device (length store.old))) }
    ensures store_after { store.new ≡ store_after device (work device (length store.old)) store.old }
{
    let transfer = device.transfer;
    if !transfer.pending {
        return Ok(device);
    }
    if !has_room(transfer, store.len()) {
        return Err(Refusal::OutputTooShort);
    }
    let at = transfer.stored as usize;
    let length = device_state::buffered_length(transfer);
    store[at..at + length].copy_from_slice(&transfer.buffer[..length]);
    Ok(unit_stored(device))
}

// The store holds the whole file, and the frame does not end past it.
#[tactic(auto, unfolding(device_rules::specs::Work::has_room))]
fn has_room(transfer: Transfer, store: usize) -> bool
    ensures { result ≡ has_room transfer store }
{
    let size = transfer.size as usize;
    size <= store && transfer.stored as usize + device_state::buffered_length(transfer) <= size
}

// The unit once its pending frame is stored. With the last frame the size is reached: the transfer is finished, and its job, if one is open, is the last
// finished one then.
#[tactic(auto, unfolding(device_rules::specs::Work::unit_stored, device_rules::specs::Work::frame_stored, device_rules::specs::Work::is_last_frame, device_rules::specs::Work::finished_job))]
fn unit_stored(device: Device) -> Device
    requires { device.transfer.stored + length (buffered_frame device.transfer) ≤ device.transfer.size }
    ensures { result ≡ unit_stored device }
{
    let transfer = device.transfer;
    let stored = transfer.stored + device_state::buffered_length(transfer) as u32;
    let mut next = Device {
        transfer: Transfer {
            number: transfer.number.wrapping_add(1),
            buffer: [0; 256],
            buffered: 0,
            pending: false,
            stored,
            ..transfer
        },
        ..device
    };
    if stored == transfer.size {
        next.transfer.phase = Phase::Finished;
        next.transfer.job = None;
        next.finished = transfer.job.or(device.finished);
    }
    next
}

// Take frame: its faults, in the order of the table, and the two tests of the number.
ghost use Rattle.std.specs.Prelude.{◌≡◌};
ghost use Rattle.device_rules.specs.Faults.{is_last_stored, is_out_of_sequence, take_fault};

use device_rules::{Fault, Phase, Transfer};

#[tactic(auto, unfolding(device_rules::specs::Faults::fault, device_rules::specs::Faults::take_fault))]
pub(crate) fn take_fault(transfer: Transfer, payload: &[u8]) -> Option<Fault>
    ensures { result ≡ take_fault transfer payload.now }
{
    let &[low, high] = payload else {
        return Some(Fault::Nack(2, 0));
    };
    if transfer.phase == Phase::Idle {
        return Some(Fault::Nack(7, 0));
    }
    if transfer.pending {
        return Some(Fault::Nack(6, 0));
    }
    if transfer.phase == Phase::Finished {
        return Some(Fault::Nack(3, 2));
    }
    let number = little_endian::u16_from_bytes(low, high);
    if is_last_stored(transfer, number) {
        return Some(Fault::Nack(3, 1));
    }
    if is_out_of_sequence(transfer, number) {
        return Some(Fault::Nack(3, 3));
    }
    let length = device_state::buffered_length(transfer);
    if length == 0 {
        return Some(Fault::Nack(7, 0));
    }
    if (transfer.size as usize) < transfer.stored as usize + length {
        return Some(Fault::Nack(3, 4));
    }
    None
}

#[tactic(auto, unfolding(device_rules::specs::Faults::is_last_stored))]
fn is_last_stored(transfer: Transfer, number: u16) -> bool
    ensures { result ≡ is_last_stored transfer number }
{
    number == transfer.number && number != 0xFFFF
}

#[tactic(auto, unfolding(device_rules::specs::Faults::is_out_of_sequence))]
fn is_out_of_sequence(transfer: Transfer, number: u16) -> bool
    ensures { result ≡ is_out_of_sequence transfer number }
{
    number == 0xFFFF || number != transfer.number.wrapping_add(1)
}

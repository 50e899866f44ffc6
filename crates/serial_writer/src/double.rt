// Doubling: each ESC between head and tail is written twice, so that a single one is always a control byte.
ghost use Rattle.std.specs.Prelude.{◌+◌, ◌≤◌, ◌≡◌, [], ◌∷◌, length};
ghost use Rattle.message_rules.proofs.Stores.{Put};
ghost use Rattle.serial_rules.specs.Stuffing.{doubled};

use serial_fields::escape;
use serial_rules::SerialLink;

// How many bytes the bytes take.
pub(crate) fn doubled_length(link: SerialLink, bytes: &[u8]) -> usize
    ensures { result ≡ length (doubled bytes.now) }
{
    let esc = escape(link);
    bytes.len() + bytes.iter().filter(|b| **b == esc).count()
}

// Puts one byte at a place of out that has room for it, and gives the place after it.
#[tactic(auto, unfolding(serial_rules::specs::Stuffing::doubled))]
fn put(link: SerialLink, b: u8, out: &mut [u8], at: usize) -> usize
    requires { at + length (doubled (b ∷ [])) ≤ length out.old }
    ensures { Put out.old at (doubled (b ∷ [])) result out.new }
{
    out[at] = b;
    if b != escape(link) {
        return at + 1;
    }
    out[at + 1] = b;
    at + 2
}

// Puts the bytes at a place of out that has room for them, and gives the place after them.
pub(crate) fn double(link: SerialLink, bytes: &[u8], out: &mut [u8], at: usize) -> usize
    requires { at + length (doubled bytes.now) ≤ length out.old }
    ensures { Put out.old at (doubled bytes.now) result out.new }
{
    let mut next = at;
    for b in bytes {
        next = put(link, *b, out, next);
    }
    next
}

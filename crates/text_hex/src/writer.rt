// Printing byte strings.
ghost use Rattle.std.specs.Prelude.{◌≡◌, ◌*◌, ◌≤◌, ◌<◌, length};
ghost use Rattle.std.proofs.lemmas.List.Edits.{sets};
ghost use Rattle.text_rules.specs.Digits.{digit_of};
ghost use Rattle.text_rules.specs.Hex.{hex_digits, printed, converted, if_room, hex_answer, hex_output};

// The capital digit of a number.
#[tactic(auto, unfolding(text_rules::specs::Digits::digit_of))]
fn digit_of(n: u8) -> u8
    requires { n < 16 }
    ensures { result ≡ digit_of n }
{
    if n < 10 {
        return b'0' + n;
    }
    b'A' + (n - 10)
}

// Stores the two digits of each byte, from the start of the output on.
fn store_digits(bytes: &[u8], out: &mut [u8])
    requires { length bytes.now * 2 ≤ length out.old }
    ensures { out.new ≡ sets out.old 0 (hex_digits bytes.now) }
{
    for (i, byte) in bytes.iter().enumerate() {
        out[i * 2] = digit_of(*byte / 16);
        out[i * 2 + 1] = digit_of(*byte % 16);
    }
}

// Prints a byte string at the start of a lent output.
pub fn write_hex(bytes: &[u8], out: &mut [u8]) -> Option<usize>
    ensures value { result ≡ hex_answer (if_room out.old (converted (printed bytes.now))) }
    ensures out_after { out.new ≡ hex_output (if_room out.old (converted (printed bytes.now))) out.old }
{
    if bytes.is_empty() {
        if out.is_empty() {
            return None;
        }
        out[0] = b'-';
        return Some(1);
    }
    if out.len() / 2 < bytes.len() {
        return None;
    }
    store_digits(bytes, out);
    Some(bytes.len() * 2)
}

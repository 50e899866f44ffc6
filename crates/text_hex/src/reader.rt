// Reading byte strings.
ghost use Rattle.std.specs.Prelude.{true, ◌≡◌, ◌/◌, ◌≤◌, length};
ghost use Rattle.std.proofs.lemmas.List.Edits.{sets};
ghost use Rattle.text_rules.specs.Digits.{digit_value, is_digit, all_digits};
ghost use Rattle.text_rules.specs.Hex.{is_dash, is_hex, pairs, read_hex, if_room, hex_answer, hex_output};

use text_numbers::digit_value;

// The word `-`.
#[tactic(auto, unfolding(text_rules::specs::Hex::is_dash))]
fn is_dash(word: &[u8]) -> bool
    ensures { result ≡ is_dash word.now }
{
    matches!(word, b"-")
}

#[tactic(auto, unfolding(text_rules::specs::Digits::is_digit))]
fn is_digit(b: u8) -> bool
    ensures { result ≡ is_digit 16 b }
{
    digit_value(b).is_some()
}

// Hexadecimal digits and nothing else.
fn all_digits(word: &[u8]) -> bool
    ensures { result ≡ all_digits 16 word.now }
{
    word.iter().all(|byte| is_digit(*byte))
}

// One byte or more, two digits each.
#[tactic(auto, unfolding(text_rules::specs::Hex::is_hex))]
fn is_hex(word: &[u8]) -> bool
    ensures { result ≡ is_hex word.now }
{
    !word.is_empty() && word.len() % 2 == 0 && all_digits(word)
}

// The value of a digit, and 16 for a byte that is none: measured, to unwrap an option at each of 512 digits took half again as long.
fn value_of(b: u8) -> u8
    ensures { result ≡ digit_value b }
{
    digit_value(b).unwrap_or(16)
}

// Stores the byte of each pair of digits, from the start of the output on.
fn store_bytes(word: &[u8], out: &mut [u8])
    requires word_value { all_digits 16 word.now ≡ true }
    requires word_in_bounds { length word.now / 2 ≤ length out.old }
    ensures { out.new ≡ sets out.old 0 (pairs word.now) }
{
    for (i, pair) in word.chunks_exact(2).enumerate() {
        let high = value_of(pair[0]);
        let low = value_of(pair[1]);
        out[i] = high * 16 + low;
    }
}

// Reads a byte string to the start of a lent output. Everything is decided before the first byte is stored.
pub fn read_hex(word: &[u8], out: &mut [u8]) -> Option<usize>
    ensures value { result ≡ hex_answer (if_room out.old (read_hex word.now)) }
    ensures out_after { out.new ≡ hex_output (if_room out.old (read_hex word.now)) out.old }
{
    if is_dash(word) {
        return Some(0);
    }
    if !is_hex(word) {
        return None;
    }
    if out.len() < word.len() / 2 {
        return None;
    }
    store_bytes(word, out);
    Some(word.len() / 2)
}

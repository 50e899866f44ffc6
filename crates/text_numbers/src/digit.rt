// Single digits, as they are read.
ghost use Rattle.std.specs.Prelude.{◌≡◌, ◌<◌, MatchOption};
ghost use Rattle.text_rules.specs.Digits.{digit_value};

// The value of a digit, and none for a byte that is no digit.
#[tactic(auto, unfolding(text_rules::specs::Digits::digit_value, text_rules::specs::Digits::from_to))]
pub fn digit_value(b: u8) -> Option<u8>
    ensures { MatchOption result (digit_value b ≡ 16) (λ d. (d ≡ digit_value b) × (d < 16)) }
{
    match b {
        b'0'..=b'9' => Some(b - b'0'),
        b'A'..=b'F' => Some(b - b'A' + 10),
        b'a'..=b'f' => Some(b - b'a' + 10),
        _ => None,
    }
}

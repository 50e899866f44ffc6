// The words of a script's line, by the rules of `text_rules` (`Words`).
#![tactic(auto)]

ghost use Rattle.std.specs.Prelude.{◌≡◌, [], ◌≤◌, length, drop, get_or};
ghost use Rattle.text_rules.specs.Words.{first_word, words};

// How many words the line has: one more than it has spaces.
pub fn word_count(line: &[u8]) -> usize
    ensures { result ≡ length (words line.now) }
{
    let mut count = 1;
    for byte in line {
        if *byte == b' ' {
            count += 1;
        }
    }
    count
}

// Where word k begins; the line's end where there is no such word. Measured on a line of eleven words and on one of spaces: to count the spaces takes
// two thirds or half of the time that it takes to split the line.
fn word_start(line: &[u8], k: usize) -> usize
    ensures upper_bound { result ≤ length line.now }
    ensures line_value { first_word (drop result line.now) ≡ get_or (words line.now) k [] }
{
    let mut left = k;
    for (i, byte) in line.iter().enumerate() {
        if left == 0 {
            return i;
        }
        if *byte == b' ' {
            left -= 1;
        }
    }
    line.len()
}

// How many bytes the first word has.
fn first_length(line: &[u8]) -> usize
    ensures { result ≡ length (first_word line.now) }
{
    for (i, byte) in line.iter().enumerate() {
        if *byte == b' ' {
            return i;
        }
    }
    line.len()
}

// Word k, counted from 0, and nothing where the line has no such word.
pub fn word(line: &[u8], k: usize) -> &[u8]
    ensures { result.now ≡ get_or (words line.now) k [] }
{
    let start = word_start(line, k);
    let rest = &line[start..];
    let n = first_length(rest);
    &rest[..n]
}

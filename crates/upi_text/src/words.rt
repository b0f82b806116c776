//! Lines, cut into words.
ghost use Rattle.std.specs.Prelude.{◌≡◌, ◌≤◌, ◌<◌, ◌+◌, length, true};
ghost use Rattle.std.specs.List.{list_all};
ghost use Rattle.std.specs.Char.{is_ascii_digit};
ghost use Rattle.std.specs.Str.Parse.{digits_value, AllDigits};
ghost use Rattle.upi_text.specs.Words.{is_skipped as is_skipped_line, first_word as first_word_of, words, word_at, after_space as after_space_of, from_word as from_word_of, number_of};

/// Whether a line is passed over: it is empty, or it begins with `#`.
pub fn is_skipped(line: &[u8]) -> bool
    ensures { result ≡ is_skipped_line line.now }
{
    match line {
        [] => true,
        [c, ..] => *c == b'#',
    }
}

// The bytes before the first space.
fn first_word(line: &[u8]) -> &[u8]
    ensures { result.now ≡ first_word_of line.now }
{
    for (i, c) in line.iter().enumerate() {
        if *c == b' ' {
            return &line[..i];
        }
    }
    line
}

// What follows the first space.
fn after_space(line: &[u8]) -> &[u8]
    ensures { result.now ≡ after_space_of line.now }
{
    for (i, c) in line.iter().enumerate() {
        if *c == b' ' {
            return &line[i + 1..];
        }
    }
    &line[line.len()..]
}

/// How many words a line has: one more than its spaces.
pub fn word_count(line: &[u8]) -> usize
    ensures { result ≡ length (words line.now) }
{
    let mut spaces = 0;
    for c in line {
        if *c == b' ' {
            spaces += 1;
        }
    }
    spaces + 1
}

/// What follows so many spaces of a line; empty where it has fewer.
pub fn from_word(line: &[u8], place: usize) -> &[u8]
    ensures { result.now ≡ from_word_of place line.now }
{
    let mut rest = line;
    for _passed in 0..place {
        rest = after_space(rest);
    }
    rest
}

/// The word at a place, counted from 0; empty past the last.
#[tactic(auto, using(crate::proofs::Cuts::word_here))]
pub fn word(line: &[u8], place: usize) -> &[u8]
    ensures { result.now ≡ word_at place (words line.now) }
{
    first_word(from_word(line, place))
}

// Whether each byte is a digit.
fn is_digits(text: &[u8]) -> bool
    ensures { result ≡ list_all is_ascii_digit text.now }
{
    for c in text {
        if !c.is_ascii_digit() {
            return false;
        }
    }
    true
}

// The number that digits spell.
#[tactic(auto, using(crate::proofs::Cuts::front_lt, upi_base::proofs::Digits::front_more, upi_base::proofs::Digits::digit_range))]
fn digits(text: &[u8]) -> u64
    requires digits { AllDigits 10 text.now }
    requires few { length text.now ≤ 18 }
    ensures { result ≡ digits_value 10 text.now }
{
    let mut value = 0u64;
    for c in text {
        value = value * 10 + u64::from(*c - b'0');
    }
    value
}

/// The number that 1 to 18 digits spell; `None` for any other text. Leading zeros may stand.
#[tactic(auto, using(crate::proofs::Cuts::digits_from_test), unfolding(crate::specs::Words::number_of))]
pub fn number(text: &[u8]) -> Option<u64>
    ensures { result ≡ number_of text.now }
{
    if text.is_empty() || text.len() > 18 || !is_digits(text) {
        return None;
    }
    Some(digits(text))
}

//! Where the reply of an E line begins.
ghost use Rattle.std.specs.Prelude.{◌≡◌, ◌≤◌, ◌+◌, MatchOption, None, Some, length, take, drop};
ghost use Rattle.journal_lines.specs.Marks;
ghost use Rattle.journal_lines.specs.calls.Reading.{IsWithin};

// Whether a text begins with ` = `.
fn has_mark(text: &[u8]) -> bool
    ensures { result ≡ Marks.has_mark text.now }
{
    match text {
        [a, b, c, ..] => *a == b' ' && *b == b'=' && *c == b' ',
        _ => false,
    }
}

// How many bytes stand before the last ` = `.
fn last_mark(line: &[u8]) -> Option<usize>
    ensures mark { result ≡ Marks.last_mark line.now }
    ensures within { IsWithin line.now result }
{
    let mut at = line.len();
    'back: while at > 0 {
        at -= 1;
        if has_mark(&line[at..]) {
            return Some(at);
        }
    }
    None
}

/// What stands before the last ` = ` of a line, and after it.
pub(crate) fn at_reply(line: &[u8]) -> Option<(&[u8], &[u8])>
    ensures { MatchOption result (Marks.at_reply line.now ≡ None) (λ p. Marks.at_reply line.now ≡ Some (p.0.now, p.1.now)) }
{
    match last_mark(line) {
        Some(at) => Some((&line[..at], &line[at + 3..])),
        None => None,
    }
}

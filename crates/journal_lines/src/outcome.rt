//! Outcomes at the end of a line.
ghost use Rattle.std.specs.Prelude.{◌≡◌, ◌<◌, ◌+◌};
ghost use Rattle.upi_text.specs.Words.{words};
ghost use Rattle.journal_lines.specs.Outcomes;

use crate::spelled::{code_of, is};
use upi_base::Outcome;
use upi_text::{Refusal, word};

/// How an outcome begins.
#[derive(Clone, Copy, Debug, PartialEq, Eq)]
pub(crate) enum OutcomeWord {
    Success,
    Deemed,
    Failure,
}

/// How an outcome begins that begins with this word.
#[tactic(auto, unfolding(crate::specs::Outcomes::outcome_word))]
pub(crate) fn outcome_word(word: &[u8]) -> Option<OutcomeWord>
    ensures { result ≡ Outcomes.outcome_word word.now }
{
    if is(word, b"SUCCESS") {
        Some(OutcomeWord::Success)
    } else if is(word, b"DEEMED") {
        Some(OutcomeWord::Deemed)
    } else if is(word, b"FAILURE") {
        Some(OutcomeWord::Failure)
    } else {
        None
    }
}

/// Whether a line of so many words ends with the outcome that begins at a place, counted from 0.
pub(crate) fn outcome_fits(count: usize, place: usize, word: Option<OutcomeWord>) -> bool
    requires { place < 100 }
    ensures { result ≡ Outcomes.outcome_fits count place word }
{
    match word {
        Some(OutcomeWord::Success) | Some(OutcomeWord::Deemed) => count == place + 1,
        Some(OutcomeWord::Failure) => count == place + 2,
        None => place + 1 <= count && count <= place + 2,
    }
}

/// The outcome of a line that begins at a place, counted from 0, with the word of this number.
pub(crate) fn outcome_value(
    line: &[u8],
    place: usize,
    field: u32,
    first: Option<OutcomeWord>,
) -> Result<Outcome, Refusal>
    requires place { place < 100 }
    requires field { field < 100 }
    ensures { result ≡ Outcomes.outcome_value (words line.now) place field first }
{
    match first {
        Some(OutcomeWord::Success) => Ok(Outcome::Success),
        Some(OutcomeWord::Deemed) => Ok(Outcome::Deemed),
        Some(OutcomeWord::Failure) => match code_of(word(line, place + 1)) {
            Some(code) => Ok(Outcome::Failure(code)),
            None => Err(Refusal::value(field + 1)),
        },
        None => Err(Refusal::value(field)),
    }
}

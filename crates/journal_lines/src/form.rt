//! Words within their grammars.
ghost use Rattle.std.specs.Prelude.{◌≡◌, ◌<◌};
ghost use Rattle.journal_lines.specs.Outcomes.{checked};

use upi_text::Refusal;

/// Whether the word of a number, counted from 1, is within its grammar.
pub(crate) fn checked(field: u32, fits: bool) -> Result<(), Refusal>
    ensures { result ≡ checked field fits }
{
    if fits {
        Ok(())
    } else {
        Err(Refusal::value(field))
    }
}

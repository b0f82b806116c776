//! Why a line is refused.
ghost use Rattle.std.specs.Prelude.{◌≡◌};
ghost use Rattle.upi_text.specs.Refusals.{not_utf8, no_command, other_fields, refusal};

use upi_base::{EngineFault, Why};

/// Why a line is refused, and at which word: counted from 1, or 0 for the whole line.
#[derive(Clone, Copy, Debug, PartialEq, Eq)]
pub struct Refusal {
    pub field: u32,
    pub why: Why,
}

impl Refusal {
    /// The line isn't UTF-8.
    pub fn not_utf8() -> Refusal
        ensures { result ≡ not_utf8 }
    {
        Refusal {
            field: 0,
            why: Why::Utf8,
        }
    }

    /// The first word is no command here.
    pub fn no_command() -> Refusal
        ensures { result ≡ no_command }
    {
        Refusal {
            field: 1,
            why: Why::Word,
        }
    }

    /// The line has another number of words.
    pub fn other_fields() -> Refusal
        ensures { result ≡ other_fields }
    {
        Refusal {
            field: 0,
            why: Why::Fields,
        }
    }

    /// A word is outside its grammar.
    pub fn value(field: u32) -> Refusal
        ensures { result ≡ refusal field Why.Value }
    {
        Refusal {
            field,
            why: Why::Value,
        }
    }
}

impl From<Refusal> for EngineFault {
    ghost use Rattle.upi_base.specs.declared.fault.EngineFault.TheVariants as fault;

    ghost from_gives = { λ r e. e ≡ fault.Bad r.field r.why };

    fn from(refusal: Refusal) -> EngineFault {
        EngineFault::Bad {
            field: refusal.field,
            why: refusal.why,
        }
    }
}

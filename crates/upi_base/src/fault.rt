//! Want of memory, and why a line was refused.
use std::alloc::{AllocError, AllocFailed};

/// There was no memory.
#[derive(Clone, Copy, Debug, PartialEq, Eq)]
pub struct NoMemory;

impl From<AllocError> for NoMemory {
    fn from(_: AllocError) -> NoMemory {
        NoMemory
    }
}

impl<T: Drop> From<AllocFailed<T>> for NoMemory {
    fn from(_: AllocFailed<T>) -> NoMemory {
        NoMemory
    }
}

/// Why a line was refused.
#[derive(Clone, Copy, Debug, PartialEq, Eq)]
pub enum Why {
    /// It isn't UTF-8.
    Utf8,
    /// Its first word is no command here.
    Word,
    /// It has another number of words.
    Fields,
    /// A word is outside its grammar.
    Value,
    /// The name was given before.
    Twice,
    /// The bank wasn't given before.
    NoBank,
    /// The PSP wasn't given before.
    NoPsp,
    /// The account wasn't given before.
    NoAccount,
    /// There are too many.
    Limit,
    /// The input ended before OPEN.
    End,
}

/// Why an engine refused a line.
#[derive(Clone, Copy, Debug, PartialEq, Eq)]
pub enum EngineFault {
    /// The line is outside the grammar, at this word, for this reason.
    Bad {
        /// The number of the word, the first being 1; 0 stands for the whole line.
        field: u32,
        /// What is wrong with it.
        why: Why,
    },
    /// There was no memory. The engine isn't to be used any more.
    NoMemory,
}

impl From<NoMemory> for EngineFault {
    ghost use Rattle.std.specs.Prelude.{◌≡◌};
    ghost use Rattle.upi_base.specs.declared.fault.EngineFault.TheVariants as fault;

    ghost from_gives = { λ _ e. e ≡ fault.NoMemory };

    fn from(_: NoMemory) -> EngineFault {
        EngineFault::NoMemory
    }
}

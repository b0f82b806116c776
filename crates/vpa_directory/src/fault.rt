//! Why a setup is refused.
ghost use Rattle.std.specs.Prelude.{◌≡◌};
ghost use Rattle.vpa_directory.specs.declared.fault.SetupFault.TheVariants as fault;
ghost use Rattle.vpa_directory.specs.Faults.{told as told_of};

use upi_base::{NoMemory, Why};

/// Why a line of a setup is refused behind the lines before it.
#[derive(Clone, Copy, Debug, PartialEq, Eq)]
pub enum SetupFault {
    /// The bank, the PSP, the account or the address was given before.
    Twice,
    /// The bank of the account wasn't given before.
    NoBank,
    /// The PSP of the address wasn't given before.
    NoPsp,
    /// The account of the address wasn't given before.
    NoAccount,
    /// There are too many of that kind.
    Limit,
    /// There was no memory.
    NoMemory,
}

/// Which line of a setup was refused, and why.
#[derive(Clone, Copy, Debug, PartialEq, Eq)]
pub struct At {
    /// The number of the line, the first being 1.
    pub at: u64,
    /// Why it was refused.
    pub fault: SetupFault,
}

impl From<NoMemory> for SetupFault {
    ghost from_gives = { λ _ r. r ≡ fault.NoMemory };

    fn from(_: NoMemory) -> SetupFault {
        SetupFault::NoMemory
    }
}

/// A reason for which a setup line is refused, as a directory tells it.
pub(crate) fn told(why: Why) -> SetupFault
    ensures { result ≡ told_of why }
{
    match why {
        Why::Twice => SetupFault::Twice,
        Why::NoBank => SetupFault::NoBank,
        Why::NoPsp => SetupFault::NoPsp,
        Why::NoAccount => SetupFault::NoAccount,
        _ => SetupFault::Limit,
    }
}

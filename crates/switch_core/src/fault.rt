//! Why a call is refused.
use upi_base::NoMemory;

/// Why a call is refused. It then adds no entry.
#[derive(Clone, Copy, Debug, PartialEq, Eq)]
pub enum CoreFault {
    /// The history has no room for the call: it has 2,097,152 entries, and only the first Close
    /// comes behind them.
    Full {
        /// How many entries there are.
        len: u64,
    },
    /// A Deliver or Lose of a message that wasn't sent.
    NoMessage {
        /// The number that was given.
        n: u64,
        /// How many messages were sent.
        sent: u64,
    },
    /// There was no memory.
    NoMemory,
}

impl From<NoMemory> for CoreFault {
    ghost use Rattle.std.specs.Prelude.{◌≡◌};
    ghost use Rattle.switch_core.specs.declared.fault.CoreFault.{CoreFault};

    ghost from_gives = { λ _ e. e ≡ CoreFault.NoMemory };

    fn from(_: NoMemory) -> CoreFault {
        CoreFault::NoMemory
    }
}

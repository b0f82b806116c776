//! What moved at one bank.

/// What moved at the accounts of one bank, in paise.
#[derive(Clone, Copy, Debug, PartialEq, Eq)]
pub struct Position {
    /// The debits that were posted.
    pub debits: u64,
    /// The debits that were given back.
    pub reversals: u64,
    /// The credits that were posted.
    pub credits: u64,
}

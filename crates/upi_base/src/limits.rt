//! The limits and the times of the switch, each under one name. Definitions read them too.

/// How many banks a setup may have.
pub const MAX_BANKS: usize = 64;

/// How many PSPs a setup may have.
pub const MAX_PSPS: usize = 64;

/// How many accounts a setup may have.
pub const MAX_ACCOUNTS: usize = 65_536;

/// How many addresses a setup may have.
pub const MAX_ADDRESSES: usize = 65_536;

/// The greatest amount of a payment, in paise.
pub const MAX_AMOUNT: u64 = 1_000_000_000;

/// The balance, in paise, above which no credit lifts an account. It binds credits alone.
pub const CREDIT_CAP: u64 = 1_000_000_000_000_000;

/// How many transactions a shard may open.
pub const SHARD_ROOM: usize = 4096;

/// How many entries a history has room for, the first Close aside.
pub const MAX_ENTRIES: u64 = 2_097_152;

/// After how many seconds a PAY's question, a leg, a reversal and a confirmation are due.
pub const DUE_SECONDS: u64 = 30;

/// How many minutes a COLLECT may take that gives none.
pub const DEFAULT_MINUTES: u32 = 30;

/// How often the outcome is confirmed at most.
pub const MAX_CONFIRMATIONS: usize = 4;

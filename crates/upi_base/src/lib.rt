//! Money, moments, names, and the data of which a history is made.
//!
//! Each value is plain data: contracts see a text as the list of its bytes, and an amount, a moment
//! or a number of minutes as a number.
#![tactic(auto)]

pub mod boxed;
mod classes;
pub mod code;
pub mod directory;
pub mod entry;
pub mod fault;
pub mod laws;
pub mod limits;
pub mod message;
pub mod minutes;
pub mod moment;
pub mod paise;
pub mod rules;
pub mod sent;
pub mod settled;
pub mod setup;
pub mod shards;
mod stamp;
pub mod text;
pub mod words;

pub use boxed::Boxed;
pub use code::{Answer, Code, Kind, Leg, Outcome, Phase, Policy, Reply, Ver};
pub use directory::{
    account_at, account_named, has_bank, has_psp, listing_at, provider, same_account, setup_fault,
};
pub use entry::{Call, Done, Entry, ShardCall};
pub use fault::{EngineFault, NoMemory, Why};
pub use limits::{
    CREDIT_CAP, DEFAULT_MINUTES, DUE_SECONDS, MAX_ACCOUNTS, MAX_ADDRESSES, MAX_AMOUNT, MAX_BANKS,
    MAX_CONFIRMATIONS, MAX_ENTRIES, MAX_PSPS, SHARD_ROOM,
};
pub use message::{
    Api, AuthResp, BadMessage, Chk, ConfResp, Extra, Head, Input, Message, MsgWhy, PayReq,
    copy_extra, copy_note,
};
pub use minutes::Minutes;
pub use moment::Moment;
pub use paise::{Paise, write_number, write_sum, write_total};
pub use rules::{
    AccountRule, AddressRule, BankRule, DigitsRule, MessageRule, NoteRule, OrgRule, PathRule,
    PspRule, TxnRule,
};
pub use sent::{AuthQuestion, Body, Party, Sent, SentList};
pub use settled::{AuditWhy, Item, Position, Recon, Side, Summary, TxnRow, Verdict};
pub use setup::{Account, AccountRef, Listing, Setup, SetupLine, SetupLines, write_account};
pub use shards::{account_shard, txn_shard};
pub use text::{Rule, Text};
pub use words::{code_word, leg_word, outcome_word, side_word};

/// The name of a transaction (`Txn.id`): 1 to 35 letters, digits, `-`, `.` or `_`.
pub type TxnId = Text<TxnRule, 35>;

/// The name of a message (`Head.msgId`): 1 to 35 letters, digits, `-`, `.` or `_`.
pub type MsgId = Text<MessageRule, 35>;

/// The name of a member (`Head.orgId`): 1 to 20 letters, digits, `-`, `.` or `_`.
pub type OrgId = Text<OrgRule, 20>;

/// The name of a PSP: 1 to 20 lower-case letters and digits, the first a letter.
pub type PspName = Text<PspRule, 20>;

/// The code of a bank: four upper-case letters.
pub type BankCode = Text<BankRule, 4>;

/// The number of an account: 1 to 20 letters and digits.
pub type AcNum = Text<AccountRule, 20>;

/// An address: 1 to 50 letters, digits, `-`, `.` or `_`, then `@`, then the name of a PSP.
pub type Addr = Text<AddressRule, 71>;

/// A note: 1 to 100 bytes of UTF-8 without controls.
pub type Note = Text<NoteRule, 100>;

/// A path in a message: `-`, or 1 to 100 letters, digits, `.`, `[` or `]`.
pub type PathText = Text<PathRule, 100>;

/// Two digits (`Txn.initiationMode`, `Txn.purpose`).
pub type TwoDigits = Text<DigitsRule, 2>;

#[cfg(test)]
mod tests;

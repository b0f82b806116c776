//! A shard of transactions: its rows, planned and committed call by call.
//!
//! A call is planned, which takes all memory that it needs, and then committed, which takes none and
//! always succeeds. Contracts see the rows in the order of the openings. For which entries of a
//! history they stand is a relation (`Stands`), over the setup, the shard's number and its own
//! entries; each call says what it makes of each such list of entries.
#![tactic(auto)]

mod close;
mod commit;
mod deliver;
pub mod laws;
mod plan;
mod readers;
mod shard;
mod step;

pub use shard::TxnShard;
pub use step::{Change, Step};

#[cfg(test)]
mod tests;

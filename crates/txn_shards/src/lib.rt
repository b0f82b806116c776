//! The sixteen shards of transactions as one.
//!
//! Whoever calls doesn't need to know which transaction is in which shard. Contracts see the list of
//! the shards. For which entries of a history they stand is a relation (`StandTxns`), over the setup
//! and the entries of each shard.
#![tactic(auto)]

pub mod laws;
mod places;
mod plan;
mod readers;
mod step;
mod txns;

pub use step::Step;
pub use txns::TxnShards;

#[cfg(test)]
mod tests;

//! The sixteen shards of accounts as one bank of accounts.
//!
//! Whoever calls doesn't need to know which account is in which shard, nor how many shards there
//! are. Contracts see the list of the shards' ledgers. For which orders these stand is a relation
//! (`StandAll`), over the setup and the orders that each shard has had.
#![tactic(auto)]

mod banks;
pub mod laws;
mod orders;

pub use banks::BankShards;

#[cfg(test)]
mod tests;

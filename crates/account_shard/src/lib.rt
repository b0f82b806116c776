//! A shard of accounts: what its banks posted, planned and committed order by order.
//!
//! An order is planned, which takes all memory that it needs, and then committed, which takes none
//! and always succeeds. Contracts see the ledger of postings. For which entries of a history that
//! stands is a relation (`Stands`), over the setup, the shard's number and the orders that came to
//! it; each call says what it makes of each such list of orders.
#![tactic(auto)]

pub mod laws;
mod orders;
mod shard;
mod step;

pub use shard::AccountShard;
pub use step::Step;

#[cfg(test)]
mod tests;

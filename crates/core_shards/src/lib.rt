//! The sixteen shards of transactions and the sixteen of accounts, with the setup and the money in
//! flight: all that a switch keeps, but for its list of entries.
//!
//! A call is planned, which takes all memory that it needs, and then committed, which takes none and
//! always succeeds. Contracts see the tables. For which history they stand is a relation
//! (`StandsAll`).
#![tactic(auto)]

mod close;
mod commit;
mod held;
pub mod laws;
mod money;
mod opened;
mod plan;
mod readers;
mod rows;
mod step;
mod tables;

pub use step::Step;
pub use tables::CoreShards;

#[cfg(test)]
mod tests;

//! What banks owe each other: the settlement list and the net of each bank, and the reconciliation
//! items.
//!
//! A transaction that ended in SUCCESS or DEEMED is settled: the payer's bank pays the amount, and
//! the payee's bank receives it.
#![tactic(auto)]

mod lists;
mod rows;
mod settlement;
mod sums;

pub use settlement::Settlement;

#[cfg(test)]
mod tests;

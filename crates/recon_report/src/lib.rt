//! The report of a closed history: comma-separated values of outcomes, settlement lists, nets,
//! reconciliation items, balances and money in flight.
#![tactic(auto)]

pub mod laws;
mod lines;
mod page;
mod sections;
mod whole;

pub use whole::report;

#[cfg(test)]
mod tests;

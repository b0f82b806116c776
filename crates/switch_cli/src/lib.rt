//! The top calls: what the programs do with the words and the streams that they are given.
#![tactic(auto)]

mod audit;
pub mod command;
mod script;

pub use command::run;
pub use upi_io::{Status, Words};

#[cfg(test)]
mod tests;

//! Which command the words of a command line ask for.
#![tactic(auto)]

pub mod command;

pub use command::{Command, LoadSize, command_of};

#[cfg(test)]
mod tests;

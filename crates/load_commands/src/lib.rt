//! The commands of generated loads: a load is written as a script, or run and summed up.
#![tactic(auto)]

mod output;
pub mod written;

pub use written::{run_generate, run_load_summary};

#[cfg(test)]
mod tests;

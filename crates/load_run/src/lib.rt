//! Runs a load: plays its lines as a script's, and sums up what became of them.
#![tactic(auto)]

pub mod laws;
pub mod run;
pub mod summary;

pub use run::{LoadFault, run_load};
pub use summary::write_summary;

#[cfg(test)]
mod tests;

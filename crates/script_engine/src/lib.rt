//! Scripts: what their lines say, the history that they make, and the text that they write.
#![tactic(auto)]

mod counts;
pub mod engine;
pub mod laws;
pub mod line;
mod pending;
mod player;

pub use engine::Engine;
pub use line::Command;
pub use upi_base::EngineFault;

#[cfg(test)]
mod tests;

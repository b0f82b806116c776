//! The switch: calls come in, one after another, and each that is accepted adds one entry to its
//! history. Contracts see the setup and the history, and nothing of how they are kept.
#![tactic(auto)]

mod enter;
pub mod fault;
mod readers;
mod refusal;
mod shut;
pub mod switch;
#[cfg(test)]
mod tests;

pub use fault::CoreFault;
pub use switch::Core;

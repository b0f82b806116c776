//! A transaction as a machine: from event to event, by what it has to keep and no more.
//!
//! A machine has no names: neither its transaction's, nor those of PSPs, accounts or messages. Its
//! caller knows them, and hands on only what is about the transaction. Contracts see a machine as its
//! fields, and say what each call means by the rules of the model (`specs/Follows.antt`).
#![tactic(auto)]

pub mod laws;
mod legs;
pub mod machine;
pub mod moves;
pub mod stage;

pub use machine::Machine;
pub use moves::{Move, Wants};
pub use stage::Stage;

//! The lines of a journal, read: the E lines of its entries, the M lines of their messages, and the
//! line that ends them.
#![tactic(auto)]

pub mod call;
pub mod entry;
mod form;
pub mod line;
mod mark;
mod message;
mod outcome;
mod reply;
mod spelled;
#[cfg(test)]
mod tests;

pub use entry::EntryLine;
pub use line::{JournalLine, JournalReader};

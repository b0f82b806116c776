//! The lines of a setup, read and written, and the lines of a journal.
#![tactic(auto)]

pub mod journal;
mod pieces;
pub mod refusal;
pub mod setup;
pub mod setup_text;
pub mod words;

pub use journal::{entry_text, message_line};
pub use pieces::fault_word;
pub use refusal::Refusal;
pub use setup::SetupRead;
pub use setup_text::{SetupStep, SetupText};
pub use words::{from_word, is_skipped, number, word, word_count};

#[cfg(test)]
mod tests;

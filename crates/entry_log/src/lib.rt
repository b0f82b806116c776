//! The list of entries and of messages of a history, cheap in memory.
//!
//! An entry is a small row; the messages of all entries stand in one list, and a row says up to
//! where they are its own. Contracts see the history.
#![tactic(auto)]

mod log;
mod rows;
mod view;

pub use log::Log;
pub use view::{CallView, EntryView};

#[cfg(test)]
mod tests;

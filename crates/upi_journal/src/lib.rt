//! A shared journal: one history in memory, to which many threads append.
#![tactic(auto)]

mod blank;
mod entry;
mod fault;
mod history;
mod home;
mod journal;
mod name;
mod pass;
mod rule;
mod seat;
mod start;
mod view;

pub use blank::JournalBlank;
pub use entry::JournalEntry;
pub use fault::{AppendFault, CloseJournal, Found};
pub use journal::Journal;
pub use name::JournalName;
pub use pass::Pass;
pub use rule::{Announce, FromHome, IntoHome, Law, Look, MakeCaller, MakeOwner, Note, Take};
pub use seat::{Board, announce, bring, enter, look, take_as_caller, take_as_owner, tell};
pub use start::Start;
pub use view::{Role, View};

#[cfg(test)]
mod tests;

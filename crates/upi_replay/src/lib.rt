//! The definitions of `upi_model`, computed: a plain program that goes over a history from entry to
//! entry and keeps what it has found in lists. When a message was last sent, it looks for in the
//! history.
#![tactic(auto)]

mod due_list;
mod dues;
mod events;
mod found;
mod held;
pub mod kept;
mod places;
mod postings;
mod psps;
mod readers;
mod replies;
mod rows;
mod rules;
pub mod same;
mod sending;
mod switch;
mod verdict;

pub use held::Totals;
pub use switch::{Replay, Step};
pub use verdict::{replay, reply_of, totals, verdict_is_exact};

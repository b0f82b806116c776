//! Messages as JSON: their one written form, and reading it back.
#![tactic(auto)]

mod answer;
mod guess;
mod head;
mod member;
mod named;
mod party;
pub mod pay;
pub mod place;
mod quote;
mod reader;
mod reply;
mod sent;
mod words;
mod write;

pub use reader::{Reader, read, reads_back};
pub use reply::reply_text;
pub use sent::sent_text;
pub use write::text;

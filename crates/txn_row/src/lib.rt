//! A row: what a switch keeps of a transaction that was opened.
//!
//! A row is the opening of its transaction, its machine, and its confirmations once it has its
//! outcome. Each call is planned without a change of the row: it answers how far the transaction
//! comes, the reply and the messages. Contracts see a row as its opening and its progress, and say by
//! the rules of the model what an event makes of it (`specs/Rows.antt`): for all that its transaction
//! may stand for, since a row doesn't know what its shard has opened.
#![tactic(auto)]

mod machine;
mod messages;
mod row;
mod rules;
mod turn;

pub use machine::RowMachine;
pub use messages::{order, question};
pub use row::Row;
pub use rules::refusal;
pub use turn::{Progress, Turn};

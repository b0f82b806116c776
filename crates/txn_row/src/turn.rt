//! How far a transaction has come, and what an event makes of it.
use crate::machine::RowMachine;
use status_check::Confirm;
use upi_base::{Reply, SentList};

/// How far a transaction has come: its machine, and its confirmations once it has its outcome.
#[derive(Clone, Copy)]
pub struct Progress {
    pub(crate) machine: RowMachine,
    pub(crate) confirm: Option<Confirm>,
}

/// What an event makes of a transaction: how far it comes, the reply, and the messages.
#[derive(Drop)]
pub struct Turn {
    pub progress: Progress,
    pub reply: Reply,
    pub sent: SentList,
}

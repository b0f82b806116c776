//! What a machine answers to an event.
use crate::stage::Stage;
use upi_base::Reply;

/// What is to be sent after an event.
#[derive(Clone, Copy, Debug, PartialEq, Eq)]
pub enum Wants {
    /// No message.
    Nothing,
    /// The order for the debit, to the payer's bank.
    Debit,
    /// The order for the credit, to the payee's bank.
    Credit,
    /// The order for the reversal, to the payer's bank, for the first time or again.
    Reversal,
    /// The outcome, to the asking PSP and then to the asked PSP.
    Outcome,
}

/// What an event is replied, and what is to be sent after it.
#[derive(Clone, Copy, Debug, PartialEq, Eq)]
pub struct Move {
    pub reply: Reply,
    pub wants: Wants,
}

/// The stage after an event, its reply, and what is to be sent.
#[derive(Clone, Copy)]
pub(crate) struct Step {
    pub stage: Stage,
    pub reply: Reply,
    pub wants: Wants,
}

//! Kinds, phases, codes, answers, outcomes and replies.

/// Which side asks for a payment (`Txn.type`).
#[derive(Clone, Copy, Debug, PartialEq, Eq)]
pub enum Kind {
    /// PAY: the payer's PSP asks for it, and the payee's PSP is asked.
    Pay,
    /// COLLECT: the payee's PSP asks for it, and the payer's PSP is asked.
    Collect,
}

/// The version of a message (`Head.ver`).
#[derive(Clone, Copy, Debug, PartialEq, Eq)]
pub enum Ver {
    /// 1.0.
    One,
    /// 2.0: a payment has two members more, `Txn.initiationMode` and `Txn.purpose`.
    Two,
}

/// A posting at a bank.
#[derive(Clone, Copy, Debug, PartialEq, Eq, Hash)]
pub enum Leg {
    /// Takes the amount from the payer's account.
    Debit,
    /// Adds the amount to the payee's account.
    Credit,
    /// Gives the payer's account back what the debit took.
    Reversal,
}

/// Where a transaction stands.
#[derive(Clone, Copy, Debug, PartialEq, Eq)]
pub enum Phase {
    /// It waits for the asked PSP's yes or no.
    Asking,
    /// It waits for the answer to its debit.
    Debiting,
    /// Its debit was posted, and it waits for the answer to its credit.
    Crediting,
    /// Its debit was late or its credit declined, and it waits for the answer to its reversal.
    Reversing,
    /// It has an outcome.
    Ended,
}

/// How a model PSP answers the question to one of its addresses.
#[derive(Clone, Copy, Debug, PartialEq, Eq)]
pub enum Policy {
    /// It approves the payment.
    Yes,
    /// It declines the payment.
    No,
    /// It sends no answer.
    Ask,
}

/// Why something was refused or declined.
#[derive(Clone, Copy, Debug, PartialEq, Eq)]
pub enum Code {
    /// The message couldn't be read.
    Format,
    /// The switch was closed.
    Closed,
    /// The transaction was opened with other terms, or decided by the other word.
    Dup,
    /// The sender may not send this.
    NotYours,
    /// An address isn't in the setup.
    Addr,
    /// An account that is given isn't the setup's.
    Account,
    /// Payer and payee have one account.
    Same,
    /// The amount isn't 1 to 1,000,000,000 paise, or isn't the transaction's.
    Amt,
    /// The shard of the transaction has opened 4,096, and has room for no more.
    Full,
    /// The transaction was never opened.
    NoTxn,
    /// There is no outcome yet.
    Early,
    /// A COLLECT wasn't approved in time.
    Expired,
    /// A PAY wasn't answered in time.
    AuthLate,
    /// The asked PSP said no.
    Declined,
    /// The debit wasn't answered in time.
    DebitLate,
    /// The credit wasn't answered in time.
    CreditLate,
    /// The balance is below the amount.
    Funds,
    /// The account takes no debits.
    NoDebit,
    /// The account takes no credits.
    NoCredit,
    /// The credit would lift the balance above 10^15 paise.
    Cap,
    /// The reversal arrived before the debit.
    Reversed,
    /// There is nothing to reverse.
    Nothing,
}

/// How a transaction ended.
#[derive(Clone, Copy, Debug, PartialEq, Eq)]
pub enum Outcome {
    /// The debit and the credit were posted.
    Success,
    /// The payment is off, for this reason; what its debit took goes back.
    Failure(Code),
    /// Approved without an answer to the credit.
    Deemed,
}

/// What a bank answers to an order.
#[derive(Clone, Copy, Debug, PartialEq, Eq)]
pub enum Answer {
    /// The leg moved its amount at the account.
    Posted,
    /// The leg moved nothing, for this reason.
    Declined(Code),
}

/// What the switch replies to a call.
#[derive(Clone, Copy, Debug, PartialEq, Eq)]
pub enum Reply {
    /// An acknowledgement: OK, or NO with a code.
    Ack(Option<Code>),
    /// The status of a transaction: its outcome, or pending.
    Status(Option<Outcome>),
    /// A bank's answer to an order.
    Leg(Answer),
    /// A PSP was told.
    Told,
    /// A loss was recorded.
    Lost,
    /// A Late that was due.
    Acted,
    /// A Late that wasn't due.
    NotDue,
    /// The switch is closed.
    Closed,
}

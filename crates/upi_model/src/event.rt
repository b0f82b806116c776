//! A call, read with the message that it delivers.
use upi_base::{AccountRef, Answer, Leg, Paise, PayReq, PspName, TxnId};

/// A yes or no to a payment, whether a PSP sent it or its model gave it.
#[derive(Drop)]
pub struct AuthWord {
    pub txn: TxnId,
    pub yes: bool,
    pub amount: Paise,
    pub payer_ac: Option<AccountRef>,
    pub payee_ac: Option<AccountRef>,
}

/// What a PSP says.
#[derive(Drop)]
pub enum Said {
    /// It asks for a payment.
    Pay(PayReq),
    /// It says yes or no to one.
    Auth(AuthWord),
    /// It asks for the status of one.
    Check(TxnId),
    /// It confirms an outcome.
    Confirmed(TxnId),
    /// It says what it may not send.
    Foreign,
}

/// What a call brings.
#[derive(Drop)]
pub enum Event {
    /// A PSP says something.
    Heard {
        psp: PspName,
        what: Said,
    },
    /// A PSP sends what can't be read.
    Unread,
    /// An order for a leg arrives at its bank.
    Ordered {
        txn: TxnId,
        leg: Leg,
    },
    /// A bank's answer for a leg arrives at the switch.
    Answered {
        txn: TxnId,
        leg: Leg,
        answer: Answer,
    },
    /// Any other message arrives.
    Told,
    /// A message is lost.
    Lost,
    /// A transaction may be due.
    Late(TxnId),
    /// The switch closes.
    Close,
}

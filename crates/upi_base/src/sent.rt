//! The messages that are sent.
ghost use Rattle.std.specs.Prelude.{◌≡◌, IfOk};

use crate::boxed::Boxed;
use crate::code::{Answer, Kind, Leg, Outcome, Ver};
use crate::fault::NoMemory;
use crate::message::{Extra, copy_extra, copy_note};
use crate::paise::Paise;
use crate::setup::AccountRef;
use crate::{Addr, BankCode, MsgId, Note, PspName, TxnId};
use std::alloc::Global;
use std::marker::Model;

/// Who sends or receives a message.
#[derive(Clone, Drop, PartialEq, Eq)]
pub enum Party {
    /// The switch itself.
    Switch,
    /// The PSP of this name.
    Psp(PspName),
    /// The bank of this code.
    Bank(BankCode),
}

impl Party {
    /// The same party.
    pub fn copy(&self) -> Party
        ensures { result ≡ self.now }
    {
        match self {
            Party::Switch => Party::Switch,
            Party::Psp(name) => Party::Psp(name.copy()),
            Party::Bank(code) => Party::Bank(code.copy()),
        }
    }
}

/// What the asked PSP is asked (`ReqAuthDetails`).
#[derive(Clone, Drop, PartialEq, Eq)]
pub struct AuthQuestion {
    /// The transaction to say yes or no to: the payment's `Txn.id`.
    pub txn: TxnId,
    /// Whether the payer's or the payee's PSP asked: the payment's `Txn.type`.
    pub kind: Kind,
    /// Who pays: the payment's `Payer.addr`.
    pub payer: Addr,
    /// Who is paid: the payment's `Payees.Payee[0].addr`.
    pub payee: Addr,
    /// The payment's `Payer.Amount.value`, 1 to 1,000,000,000 paise.
    pub amount: Paise,
    /// The payment's `Txn.note`.
    pub note: Option<Note>,
    /// The payment's `Txn.initiationMode` and `Txn.purpose`: given exactly with version 2.0.
    pub extra: Option<Extra>,
}

impl AuthQuestion {
    /// The same question.
    pub fn copy(&self) -> AuthQuestion
        ensures { result ≡ self.now }
    {
        AuthQuestion {
            txn: self.txn.copy(),
            kind: self.kind,
            payer: self.payer.copy(),
            payee: self.payee.copy(),
            amount: self.amount,
            note: copy_note(&self.note),
            extra: copy_extra(&self.extra),
        }
    }
}

/// What a message says.
#[derive(Drop, PartialEq)]
pub enum Body {
    /// REQAUTH: to the asked PSP.
    ReqAuth(Boxed<AuthQuestion>),
    /// RESPAUTH: a model PSP's yes or no.
    RespAuth {
        /// The transaction that it decides.
        txn: TxnId,
        /// The amount of the question, 1 to 1,000,000,000 paise.
        amount: Paise,
        /// Whether it approves the payment.
        yes: bool,
    },
    /// DEBIT, CREDIT or REVERSAL: to a bank.
    Order {
        /// The transaction for which the bank posts.
        txn: TxnId,
        /// Which posting it is to make.
        leg: Leg,
        /// How much it is to move, 1 to 1,000,000,000 paise.
        amount: Paise,
        /// The account at which it posts. On the heap, since each message of a history takes the
        /// room of its largest form.
        ac: Boxed<AccountRef>,
        /// The address of that account: the payee's for a credit, else the payer's.
        addr: Boxed<Addr>,
        /// The payment's `Txn.initiationMode` and `Txn.purpose`: given exactly with version 2.0.
        extra: Option<Extra>,
    },
    /// ANSWER: a bank's, to an order.
    LegAnswer {
        /// The transaction of the order.
        txn: TxnId,
        /// The posting that was ordered.
        leg: Leg,
        /// Whether the bank made it.
        answer: Answer,
    },
    /// RESPPAY: to the asking PSP.
    Result {
        /// The transaction that ended.
        txn: TxnId,
        /// The payment's `Txn.type`.
        kind: Kind,
        /// How it ended.
        outcome: Outcome,
        /// The payment's `Head.msgId`.
        req_msg: MsgId,
    },
    /// CONFIRM: to the asked PSP.
    Confirm {
        /// The transaction that ended.
        txn: TxnId,
        /// The payment's `Txn.type`.
        kind: Kind,
        /// How it ended.
        outcome: Outcome,
    },
    /// CONFIRMED: a model PSP's answer to the confirmation.
    Confirmed {
        /// The transaction whose outcome it was told.
        txn: TxnId,
    },
}

impl Body {
    /// The same body. It fails only for want of memory.
    pub fn copy(&self, alloc: Global) -> Result<Body, NoMemory>
        ensures { IfOk result (λ x. x ≡ self.now) }
    {
        match self {
            Body::ReqAuth(question) => Ok(Body::ReqAuth(Boxed::new(alloc, question.get().copy())?)),
            Body::RespAuth { txn, amount, yes } => Ok(Body::RespAuth {
                txn: txn.copy(),
                amount: *amount,
                yes: *yes,
            }),
            Body::Order {
                txn,
                leg,
                amount,
                ac,
                addr,
                extra,
            } => Ok(Body::Order {
                txn: txn.copy(),
                leg: *leg,
                amount: *amount,
                ac: Boxed::new(alloc, ac.get().copy())?,
                addr: Boxed::new(alloc, addr.get().copy())?,
                extra: copy_extra(extra),
            }),
            Body::LegAnswer { txn, leg, answer } => Ok(Body::LegAnswer {
                txn: txn.copy(),
                leg: *leg,
                answer: *answer,
            }),
            Body::Result {
                txn,
                kind,
                outcome,
                req_msg,
            } => Ok(Body::Result {
                txn: txn.copy(),
                kind: *kind,
                outcome: *outcome,
                req_msg: req_msg.copy(),
            }),
            Body::Confirm { txn, kind, outcome } => Ok(Body::Confirm {
                txn: txn.copy(),
                kind: *kind,
                outcome: *outcome,
            }),
            Body::Confirmed { txn } => Ok(Body::Confirmed { txn: txn.copy() }),
        }
    }
}

/// A message that is sent.
#[derive(Drop, PartialEq)]
pub struct Sent {
    /// Its sender.
    pub from: Party,
    /// Its receiver.
    pub to: Party,
    /// What it says.
    pub body: Body,
    /// Its version: that of the payment or of the message that it answers.
    pub ver: Ver,
}

impl Sent {
    /// The same message. It fails only for want of memory.
    pub fn copy(&self, alloc: Global) -> Result<Sent, NoMemory>
        ensures { IfOk result (λ x. x ≡ self.now) }
    {
        Ok(Sent {
            from: self.from.copy(),
            to: self.to.copy(),
            body: self.body.copy(alloc)?,
            ver: self.ver,
        })
    }
}

/// Messages, in the order in which they are sent.
#[derive(Drop)]
pub struct SentList {
    items: Vec<Sent>,
}

impl Model for SentList {
    ghost use Rattle.std.specs.Prelude.{List};
    ghost use Rattle.upi_base.specs.declared.sent.Sent.{Sent};

    ghost Value = { List Sent };

    ghost view = { λ s. s.items.items };
}

impl SentList {
    ghost use Rattle.std.specs.Prelude.{◌≡◌, [], IfOk};

    /// No messages.
    pub fn new(alloc: Global) -> SentList
        ensures { result ≡ [] }
    {
        SentList {
            items: Vec::new(alloc),
        }
    }

    /// These messages.
    pub fn of(items: Vec<Sent>) -> SentList
        ensures { result ≡ items.items }
    {
        SentList { items }
    }

    /// The same messages. It fails only for want of memory.
    pub fn copy(&self, alloc: Global) -> Result<SentList, NoMemory>
        ensures { IfOk result (λ x. x ≡ self.now) }
    {
        let mut items = Vec::new(alloc);
        for sent in &self.items {
            items.push(sent.copy(alloc)?)?;
        }
        Ok(SentList { items })
    }

    /// The messages as a slice.
    pub fn items(&self) -> &[Sent]
        ensures { result.now ≡ self.now }
    {
        &self.items
    }

    /// The messages as a vector.
    pub fn into_items(self) -> Vec<Sent>
        ensures { result.items ≡ self }
    {
        self.items
    }
}

//! The messages that a PSP sends, as they were read.
ghost use Rattle.std.specs.Prelude.{◌≡◌, ⊤, IfOk, is_some};
ghost use Rattle.upi_base.specs.Versions.{is_two};

use crate::boxed::Boxed;
use crate::code::{Kind, Ver};
use crate::fault::NoMemory;
use crate::minutes::Minutes;
use crate::moment::Moment;
use crate::paise::Paise;
use crate::setup::AccountRef;
use crate::{Addr, MsgId, Note, OrgId, PathText, TwoDigits, TxnId};
use std::alloc::{AllocError, Global};

/// The head of a message (`Head`): its name, who sends it and when, and its version.
#[derive(Clone, Drop, PartialEq, Eq)]
pub struct Head {
    /// `Head.msgId`: the name that its sender gave it.
    pub msg_id: MsgId,
    /// `Head.orgId`: the member that sends it. No rule compares it with the PSP that is heard.
    pub org: OrgId,
    /// `Head.ts`: the moment that its sender gives, in seconds since 1970-01-01T00:00:00Z.
    pub ts: Moment,
    /// `Head.ver`.
    pub ver: Ver,
}

impl Head {
    /// The same head.
    pub fn copy(&self) -> Head
        ensures { result ≡ self.now }
    {
        Head {
            msg_id: self.msg_id.copy(),
            org: self.org.copy(),
            ts: self.ts,
            ver: self.ver,
        }
    }
}

/// What a payment of version 2.0 has besides. No rule reads it but that of a repeated payment.
#[derive(Clone, Drop, PartialEq, Eq)]
pub struct Extra {
    /// `Txn.initiationMode`, `00` where it is absent.
    pub mode: TwoDigits,
    /// `Txn.purpose`, `00` where it is absent.
    pub purpose: TwoDigits,
}

impl Extra {
    /// The same.
    pub fn copy(&self) -> Extra
        ensures { result ≡ self.now }
    {
        Extra {
            mode: self.mode.copy(),
            purpose: self.purpose.copy(),
        }
    }
}

/// The same, where there is one.
pub fn copy_extra(extra: &Option<Extra>) -> Option<Extra>
    ensures { result ≡ extra.now }
{
    match extra {
        None => None,
        Some(extra) => Some(extra.copy()),
    }
}

// The same account, where there is one.
fn copy_account(ac: &Option<AccountRef>) -> Option<AccountRef>
    ensures { result ≡ ac.now }
{
    match ac {
        None => None,
        Some(ac) => Some(ac.copy()),
    }
}

/// The same note, where there is one.
pub fn copy_note(note: &Option<Note>) -> Option<Note>
    ensures { result ≡ note.now }
{
    match note {
        None => None,
        Some(note) => Some(note.copy()),
    }
}

// The same number, where there is one.
fn copy_minutes(minutes: &Option<Minutes>) -> Option<Minutes>
    ensures { result ≡ minutes.now }
{
    match minutes {
        None => None,
        Some(minutes) => Some(minutes.copy()),
    }
}

/// A payment that a PSP asks for (`ReqPay`).
#[derive(Drop, PartialEq, Eq)]
pub struct PayReq {
    /// `Head`. RESPPAY, the outcome to the asking PSP, carries its `msgId`.
    pub head: Head,
    /// `Txn.type`: whether the payer's or the payee's PSP asks.
    pub kind: Kind,
    /// `Txn.id`: the transaction that it opens where no rule refuses it.
    pub txn: TxnId,
    /// `Txn.note`: words for the asked PSP. No rule reads them.
    pub note: Option<Note>,
    /// `Txn.Rules`, EXPIREAFTER: 1 to 64,800 minutes to answer a COLLECT, 30 where it is absent.
    pub expire: Option<Minutes>,
    /// `Payer.addr`: who pays.
    pub payer: Addr,
    /// `Payees.Payee[0].addr`: who is paid.
    pub payee: Addr,
    /// `Payer.Amount.value`, in paise. Only 1 to 1,000,000,000 opens a transaction.
    pub amount: Paise,
    /// `Payer.Ac`: where it is given, it has to be the account that the setup gives the payer.
    pub payer_ac: Option<AccountRef>,
    /// `Payees.Payee[0].Ac`: where it is given, it has to be the setup's for the payee.
    pub payee_ac: Option<AccountRef>,
    /// `Txn.initiationMode` and `Txn.purpose`: given exactly where the version is 2.0.
    pub extra: Option<Extra>,
    pub ghost by_version: { is_some extra ≡ is_two head.ver },
}

impl Clone for PayReq {
    ghost is_clone = { λ a b. b ≡ a };

    ghost is_infallible = { λ _. ⊤ };

    fn clone(&self) -> Result<PayReq, AllocError> {
        Ok(self.copy())
    }
}

impl PayReq {
    /// The same payment.
    pub fn copy(&self) -> PayReq
        ensures { result ≡ self.now }
    {
        PayReq {
            head: self.head.copy(),
            kind: self.kind,
            txn: self.txn.copy(),
            note: copy_note(&self.note),
            expire: copy_minutes(&self.expire),
            payer: self.payer.copy(),
            payee: self.payee.copy(),
            amount: self.amount,
            payer_ac: copy_account(&self.payer_ac),
            payee_ac: copy_account(&self.payee_ac),
            extra: copy_extra(&self.extra),
        }
    }
}

/// The asked PSP's yes or no (`RespAuthDetails`).
#[derive(Clone, Drop, PartialEq, Eq)]
pub struct AuthResp {
    /// `Head`. No rule reads it.
    pub head: Head,
    /// `Resp.reqMsgId`: the name of the question. No rule reads it.
    pub req_msg: MsgId,
    /// `Txn.id`: the transaction that it decides.
    pub txn: TxnId,
    /// `Resp.result`: SUCCESS for a yes, FAILURE for a no.
    pub yes: bool,
    /// `Payer.Amount.value`, in paise. It has to be the transaction's.
    pub amount: Paise,
    /// `Payer.Ac`: where it is given, it has to be the account that the setup gives the payer.
    pub payer_ac: Option<AccountRef>,
    /// `Payees.Payee[0].Ac`: where it is given, it has to be the setup's for the payee.
    pub payee_ac: Option<AccountRef>,
}

impl AuthResp {
    /// The same answer.
    pub fn copy(&self) -> AuthResp
        ensures { result ≡ self.now }
    {
        AuthResp {
            head: self.head.copy(),
            req_msg: self.req_msg.copy(),
            txn: self.txn.copy(),
            yes: self.yes,
            amount: self.amount,
            payer_ac: copy_account(&self.payer_ac),
            payee_ac: copy_account(&self.payee_ac),
        }
    }
}

/// A question for the status of a transaction (`ReqChkTxn`).
#[derive(Clone, Drop, PartialEq, Eq)]
pub struct Chk {
    /// `Head`. No rule reads it.
    pub head: Head,
    /// `Txn.id`: the transaction whose status is asked for.
    pub txn: TxnId,
}

impl Chk {
    /// The same question.
    pub fn copy(&self) -> Chk
        ensures { result ≡ self.now }
    {
        Chk {
            head: self.head.copy(),
            txn: self.txn.copy(),
        }
    }
}

/// The asked PSP's answer to the confirmation (`RespTxnConfirmation`).
#[derive(Clone, Drop, PartialEq, Eq)]
pub struct ConfResp {
    /// `Head`. No rule reads it.
    pub head: Head,
    /// `Resp.reqMsgId`: the name of the confirmation. No rule reads it.
    pub req_msg: MsgId,
    /// `Txn.id`: the transaction whose outcome it was told.
    pub txn: TxnId,
}

impl ConfResp {
    /// The same answer.
    pub fn copy(&self) -> ConfResp
        ensures { result ≡ self.now }
    {
        ConfResp {
            head: self.head.copy(),
            req_msg: self.req_msg.copy(),
            txn: self.txn.copy(),
        }
    }
}

/// A message that a PSP may not send, by the name of its root.
#[derive(Clone, Copy, Debug, PartialEq, Eq)]
pub enum Api {
    /// `RespPay`: the answer to a payment.
    RespPay,
    /// `ReqAuthDetails`: the question to the asked PSP.
    ReqAuthDetails,
    /// `RespChkTxn`: the status of a transaction.
    RespChkTxn,
    /// `ReqTxnConfirmation`: the outcome, told to the asked PSP.
    ReqTxnConfirmation,
}

/// A message that was read.
#[derive(Drop, PartialEq)]
pub enum Message {
    /// `ReqPay`: the PSP asks for a payment.
    Pay(Boxed<PayReq>),
    /// `RespAuthDetails`: the PSP says yes or no to a payment.
    AuthAnswer(Boxed<AuthResp>),
    /// `ReqChkTxn`: the PSP asks how a transaction stands.
    Check(Chk),
    /// `RespTxnConfirmation`: the PSP says that it was told an outcome.
    Confirmed(Boxed<ConfResp>),
    /// What no PSP may send: the name of its root, and its `Head`. Nothing else of it is kept.
    Foreign { api: Api, head: Head },
}

impl Message {
    /// The same message. It fails only for want of memory.
    pub fn copy(&self, alloc: Global) -> Result<Message, NoMemory>
        ensures { IfOk result (λ x. x ≡ self.now) }
    {
        match self {
            Message::Pay(request) => Ok(Message::Pay(Boxed::new(alloc, request.get().copy())?)),
            Message::AuthAnswer(answer) => Ok(Message::AuthAnswer(Boxed::new(
                alloc,
                answer.get().copy(),
            )?)),
            Message::Check(question) => Ok(Message::Check(question.copy())),
            Message::Confirmed(answer) => Ok(Message::Confirmed(Boxed::new(
                alloc,
                answer.get().copy(),
            )?)),
            Message::Foreign { api, head } => Ok(Message::Foreign {
                api: *api,
                head: head.copy(),
            }),
        }
    }
}

/// What is wrong with a message that can't be read.
#[derive(Clone, Copy, Debug, PartialEq, Eq)]
pub enum MsgWhy {
    /// It is no JSON.
    Json,
    /// Its root isn't an object with one member, which has the name of a message.
    Root,
    /// A member that it needs isn't there.
    Missing,
    /// A member isn't the object, the list or the text that it should be.
    Kind,
    /// A text is outside its grammar.
    Value,
    /// A list has too few or too many items, or too few or too many of one name.
    Count,
    /// A value that is given twice isn't the same both times.
    Differs,
}

/// A message that can't be read: where its first fault is, and which.
#[derive(Clone, Drop, PartialEq, Eq)]
pub struct BadMessage {
    /// The members from the root to it, as in `ReqPay.Txn.id`; `-` for the whole text.
    pub path: PathText,
    /// What is wrong there.
    pub why: MsgWhy,
}

impl BadMessage {
    /// The same fault.
    pub fn copy(&self) -> BadMessage
        ensures { result ≡ self.now }
    {
        BadMessage {
            path: self.path.copy(),
            why: self.why,
        }
    }
}

/// What a PSP sends: a message, or something that can't be read as one.
#[derive(Drop, PartialEq)]
pub enum Input {
    /// It was read as this message.
    Good(Message),
    /// It couldn't be read, for this fault.
    Bad(BadMessage),
}

impl Input {
    /// The same input. It fails only for want of memory.
    pub fn copy(&self, alloc: Global) -> Result<Input, NoMemory>
        ensures { IfOk result (λ x. x ≡ self.now) }
    {
        match self {
            Input::Good(message) => Ok(Input::Good(message.copy(alloc)?)),
            Input::Bad(fault) => Ok(Input::Bad(fault.copy())),
        }
    }
}

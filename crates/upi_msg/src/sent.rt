//! The JSON of the messages that are sent.
ghost use Rattle.std.specs.Prelude.{◌≡◌, ◌++◌, true, IfOk, OnOk, OnErr};
ghost use Rattle.serde_json.specs.Written.{compact_text, members_text};
ghost use Rattle.upi_msg.specs.Pieces.{opening_text};
ghost use Rattle.upi_msg.specs.Sending;
ghost use Rattle.upi_msg.specs.Tree.{id_tree};

use crate::words::{kind_text, result_text};
use crate::write::{
    WRITTEN, push_answer_payer, push_head_of, push_member, push_outcome, push_payee, push_payer,
    push_resp, push_text, push_txn,
};
use itoa::Buffer;
use std::alloc::Global;
use upi_base::{
    AccountRef, Addr, Answer, AuthQuestion, Body, Call, Code, Extra, Leg, Moment, NoMemory,
    Outcome, Paise, Party, Sent, TxnId, leg_word, outcome_word,
};

// The name of a party.
fn party_text<'a>(party: &'a Party) -> &'a [u8]
    ensures { result.now ≡ Sending.party_text party.entry.now }
{
    match party {
        Party::Switch => b"SWITCH",
        Party::Psp(name) => name.bytes(),
        Party::Bank(code) => code.bytes(),
    }
}

/// A name of a letter and a number.
pub(crate) fn numbered(alloc: Global, letter: &[u8], number: u64) -> Result<Vec<u8>, NoMemory>
    ensures { IfOk result (λ v. v.items ≡ Sending.numbered letter.now number) }
{
    let mut name = Vec::new(alloc);
    name.extend_from_slice(letter)?;
    let mut buffer = Buffer::new();
    name.extend_from_slice(buffer.format(number).as_bytes())?;
    Ok(name)
}

// The number of the message that a call delivers.
fn delivered(call: &Call) -> u64
    ensures { result ≡ Sending.delivered call.now }
{
    match call {
        Call::Hear {
            psp: _psp,
            input: _input,
        } => 0,
        Call::Deliver(number) => *number,
        Call::Lose(_number) => 0,
        Call::Late(_txn) => 0,
        Call::Close => 0,
    }
}

/// The code of an outcome, which a failure has.
pub(crate) fn failure_code(outcome: Outcome) -> Option<Code>
    ensures { result ≡ Sending.failure_code outcome }
{
    match outcome {
        Outcome::Success => None,
        Outcome::Failure(code) => Some(code),
        Outcome::Deemed => None,
    }
}

// The code of a bank's answer, which a refusal has.
fn declined_code(answer: Answer) -> Option<Code>
    ensures { result ≡ Sending.declined_code answer }
{
    match answer {
        Answer::Posted => None,
        Answer::Declined(code) => Some(code),
    }
}

// The word of a bank's answer.
fn answer_word(answer: Answer) -> &'static [u8]
    ensures { result.now ≡ Sending.answer_word answer }
{
    match answer {
        Answer::Posted => b"SUCCESS",
        Answer::Declined(_code) => b"FAILURE",
    }
}

// The root of a message that is sent.
fn sent_root(body: &Body) -> &'static [u8]
    ensures { result.now ≡ Sending.sent_root body.now }
{
    match body {
        Body::ReqAuth(_question) => b"ReqAuthDetails",
        Body::RespAuth {
            txn: _txn,
            amount: _amount,
            yes: _yes,
        } => b"RespAuthDetails",
        Body::Order {
            txn: _txn,
            leg: _leg,
            amount: _amount,
            ac: _ac,
            addr: _addr,
            extra: _extra,
        } => b"ReqPay",
        Body::LegAnswer {
            txn: _txn,
            leg: _leg,
            answer: _answer,
        } => b"RespPay",
        Body::Result {
            txn: _txn,
            kind: _kind,
            outcome: _outcome,
            req_msg: _req_msg,
        } => b"RespPay",
        Body::Confirm {
            txn: _txn,
            kind: _kind,
            outcome: _outcome,
        } => b"ReqTxnConfirmation",
        Body::Confirmed { txn: _txn } => b"RespTxnConfirmation",
    }
}

// Appends a `Txn` of which the id alone is known.
fn push_id(out: &mut Vec<u8>, txn: &TxnId) -> Result<(), NoMemory>
    ensures { OnOk result (out.new.items ≡ out.old.items ++ compact_text (id_tree txn.now)) }
{
    push_text(out, b"{\"id\":", txn)?;
    out.push(b'}')?;
    Ok(())
}

// Appends what a REQAUTH has behind its `Head`.
fn push_question(out: &mut Vec<u8>, question: &AuthQuestion) -> Result<(), NoMemory>
    ensures { OnOk result (out.new.items
        ≡ out.old.items ++ members_text true (Sending.question_members question.now)) }
{
    out.extend_from_slice(b",\"Payees\":{\"Payee\":[")?;
    push_payee(out, &None, &question.payee)?;
    out.extend_from_slice(b"]},\"Payer\":")?;
    push_payer(out, &None, question.amount, &question.payer)?;
    out.extend_from_slice(b",\"Txn\":")?;
    let word = kind_text(question.kind);
    push_txn(
        out,
        &None,
        &question.txn,
        &question.extra,
        &question.note,
        word,
    )?;
    out.push(b'}')?;
    Ok(())
}

// Appends what a RESPAUTH has behind its `Head`.
fn push_word(
    out: &mut Vec<u8>,
    req: &[u8],
    txn: &TxnId,
    amount: Paise,
    word: &[u8],
) -> Result<(), NoMemory>
    ensures { OnOk result (out.new.items
        ≡ out.old.items ++ members_text true (Sending.word_members req.now txn.now amount word.now)) }
{
    out.extend_from_slice(b",\"Payer\":")?;
    push_answer_payer(out, &None, amount)?;
    out.extend_from_slice(b",\"Resp\":")?;
    push_resp(out, None, req, word)?;
    out.extend_from_slice(b",\"Txn\":")?;
    push_id(out, txn)?;
    out.push(b'}')?;
    Ok(())
}

// Appends what a CREDIT has behind its `Head`.
fn push_credit(
    out: &mut Vec<u8>,
    txn: &TxnId,
    word: &[u8],
    extra: &Option<Extra>,
    ac: &Option<AccountRef>,
    amount: Paise,
    addr: &Addr,
) -> Result<(), NoMemory>
    ensures { OnOk result (out.new.items ≡ out.old.items ++ members_text true
        (Sending.credit_members txn.now word.now extra.now ac.now amount addr.now)) }
{
    out.extend_from_slice(b",\"Payees\":{\"Payee\":[")?;
    push_payer(out, ac, amount, addr)?;
    out.extend_from_slice(b"]},\"Txn\":")?;
    push_txn(out, &None, txn, extra, &None, word)?;
    out.push(b'}')?;
    Ok(())
}

// Appends what a DEBIT or a REVERSAL has behind its `Head`.
fn push_debit(
    out: &mut Vec<u8>,
    txn: &TxnId,
    word: &[u8],
    extra: &Option<Extra>,
    ac: &Option<AccountRef>,
    amount: Paise,
    addr: &Addr,
) -> Result<(), NoMemory>
    ensures { OnOk result (out.new.items ≡ out.old.items ++ members_text true
        (Sending.debit_members txn.now word.now extra.now ac.now amount addr.now)) }
{
    out.extend_from_slice(b",\"Payer\":")?;
    push_payer(out, ac, amount, addr)?;
    out.extend_from_slice(b",\"Txn\":")?;
    push_txn(out, &None, txn, extra, &None, word)?;
    out.push(b'}')?;
    Ok(())
}

// Appends what an order has behind its `Head`.
fn push_order(
    out: &mut Vec<u8>,
    txn: &TxnId,
    leg: Leg,
    extra: &Option<Extra>,
    ac: &Option<AccountRef>,
    amount: Paise,
    addr: &Addr,
) -> Result<(), NoMemory>
    ensures { OnOk result (out.new.items ≡ out.old.items ++ members_text true
        (Sending.order_members txn.now leg extra.now ac.now amount addr.now)) }
{
    let word = leg_word(leg);
    match leg {
        Leg::Debit => push_debit(out, txn, word, extra, ac, amount, addr),
        Leg::Credit => push_credit(out, txn, word, extra, ac, amount, addr),
        Leg::Reversal => push_debit(out, txn, word, extra, ac, amount, addr),
    }
}

/// Appends what an answer with a result has behind its `Head`.
pub(crate) fn push_result(
    out: &mut Vec<u8>,
    code: Option<Code>,
    req: &[u8],
    result_word: &[u8],
    txn: &TxnId,
    word: &[u8],
) -> Result<(), NoMemory>
    ensures { OnOk result (out.new.items ≡ out.old.items ++ members_text true
        (Sending.result_members code req.now result_word.now txn.now word.now)) }
{
    out.extend_from_slice(b",\"Resp\":")?;
    push_resp(out, code, req, result_word)?;
    out.extend_from_slice(b",\"Txn\":")?;
    push_txn(out, &None, txn, &None, &None, word)?;
    out.push(b'}')?;
    Ok(())
}

// Appends what a CONFIRM has behind its `Head`.
fn push_confirm(
    out: &mut Vec<u8>,
    code: Option<Code>,
    result_word: &[u8],
    txn: &TxnId,
    word: &[u8],
) -> Result<(), NoMemory>
    ensures { OnOk result (out.new.items ≡ out.old.items ++ members_text true
        (Sending.confirm_members code result_word.now txn.now word.now)) }
{
    out.extend_from_slice(b",\"Resp\":")?;
    push_outcome(out, code, result_word)?;
    out.extend_from_slice(b",\"Txn\":")?;
    push_txn(out, &None, txn, &None, &None, word)?;
    out.push(b'}')?;
    Ok(())
}

// Appends what a CONFIRMED has behind its `Head`.
fn push_told(out: &mut Vec<u8>, req: &[u8], txn: &TxnId) -> Result<(), NoMemory>
    ensures { OnOk result (out.new.items
        ≡ out.old.items ++ members_text true (Sending.told_members req.now txn.now)) }
{
    out.extend_from_slice(b",\"Resp\":")?;
    push_resp(out, None, req, b"SUCCESS")?;
    out.extend_from_slice(b",\"Txn\":")?;
    push_id(out, txn)?;
    out.push(b'}')?;
    Ok(())
}

// Appends what a message has behind its `Head`.
fn push_body(out: &mut Vec<u8>, req: &[u8], body: &Body) -> Result<(), NoMemory>
    ensures { OnOk result (out.new.items
        ≡ out.old.items ++ members_text true (Sending.sent_members req.now body.now)) }
{
    match body {
        Body::ReqAuth(question) => push_question(out, question.get()),
        Body::RespAuth { txn, amount, yes } => {
            push_word(out, req, txn, *amount, result_text(*yes))
        }
        Body::Order {
            txn,
            leg,
            amount,
            ac,
            addr,
            extra,
        } => push_order(
            out,
            txn,
            *leg,
            extra,
            &Some(ac.get().copy()),
            *amount,
            addr.get(),
        ),
        Body::LegAnswer { txn, leg, answer } => push_result(
            out,
            declined_code(*answer),
            req,
            answer_word(*answer),
            txn,
            leg_word(*leg),
        ),
        Body::Result {
            txn,
            kind,
            outcome,
            req_msg,
        } => push_result(
            out,
            failure_code(*outcome),
            req_msg.bytes(),
            outcome_word(*outcome),
            txn,
            kind_text(*kind),
        ),
        Body::Confirm { txn, kind, outcome } => push_confirm(
            out,
            failure_code(*outcome),
            outcome_word(*outcome),
            txn,
            kind_text(*kind),
        ),
        Body::Confirmed { txn } => push_told(out, req, txn),
    }
}

/// Appends how a message begins, up to its `Head`.
pub(crate) fn push_opening(out: &mut Vec<u8>, name: &[u8]) -> Result<(), NoMemory>
    ensures { OnOk result (out.new.items ≡ out.old.items ++ opening_text name.now) }
{
    push_member(out, b"{", name)?;
    out.extend_from_slice(b":{\"Head\":")?;
    Ok(())
}

// Appends a message of this name, which answers the message of that one.
fn push_named(
    out: &mut Vec<u8>,
    sent: &Sent,
    name: &[u8],
    req: &[u8],
    at: Moment,
) -> Result<(), NoMemory>
    ensures { OnOk result (out.new.items
        ≡ out.old.items ++ compact_text (Sending.sent_tree sent.now name.now req.now at)) }
{
    push_opening(out, sent_root(&sent.body))?;
    push_head_of(out, name, party_text(&sent.from), at, sent.ver)?;
    push_body(out, req, &sent.body)?;
    out.push(b'}')?;
    Ok(())
}

// Appends message n.
fn push_sent(
    alloc: Global,
    out: &mut Vec<u8>,
    sent: &Sent,
    n: u64,
    cause: &Call,
    at: Moment,
) -> Result<(), NoMemory>
    ensures { OnOk result (out.new.items
        ≡ out.old.items ++ Sending.sent_text sent.now n cause.now at) }
{
    let name = numbered(alloc, b"M", n)?;
    let req = numbered(alloc, b"M", delivered(cause))?;
    push_named(out, sent, &name, &req, at)?;
    Ok(())
}

/// Appends the JSON of message `n`, which the call `cause` sent at the moment `at`. An answer names
/// the message that the call delivers; where the call is no Deliver, it names `M0`. It fails only
/// for want of memory, and then leaves `out` as it was.
pub fn sent_text(
    alloc: Global,
    sent: &Sent,
    n: u64,
    cause: &Call,
    at: Moment,
    out: &mut Vec<u8>,
) -> Result<(), NoMemory>
    ensures ok { OnOk result (out.new.items
        ≡ out.old.items ++ Sending.sent_text sent.now n cause.now at) }
    ensures err { OnErr result (out.new.items ≡ out.old.items) }
{
    let mut written = Vec::with_capacity(alloc, WRITTEN)?;
    push_sent(alloc, &mut written, sent, n, cause, at)?;
    out.extend_from_slice(&written)?;
    Ok(())
}

//! The Close, and the calls behind it: a status is still told, and all else is refused.
ghost use Rattle.std.specs.Prelude.{◌≡◌, ◌∷◌, ℕ, Some, true, false, IfOk, OnErr};
ghost use Rattle.upi_words.specs.Prelude.{History, Input as AnInput, is_closed, opening, outcome_of};
ghost use Rattle.upi_model.specs.History.{heard_from, is_close as closes};
ghost use Rattle.upi_model.specs.Legal.{entry_of, may_come};
ghost use Rattle.upi_model.specs.Places;
ghost use Rattle.upi_model.specs.Replies;
ghost use Rattle.core_shards.specs.Tables.{StandsAll};
ghost use Rattle.switch_core.specs.Shut.{shut_reply};

use core_shards::CoreShards;
use entry_log::Log;
use std::alloc::Global;
use upi_base::{
    Call, Code, Entry, Input, Kind, Message, Moment, NoMemory, Outcome, PayReq, PspName, Reply,
    SentList, TxnId, provider,
};
use upi_model::Opening;

/// The first Close: what it makes arrive is planned, the list takes its entry, and the tables take
/// the plan, which needs no memory.
pub(crate) fn enter_close(
    alloc: Global,
    tables: &mut CoreShards,
    log: &mut Log,
    call: Call,
    now: Moment,
) -> Result<Reply, NoMemory>
    requires stands { StandsAll log.old tables.old }
    requires comes { may_come tables.old.lines log.old call ≡ true }
    requires runs { is_closed log.old ≡ false }
    requires close { closes call ≡ true }
    ensures ok { IfOk result (λ reply. (log.new ≡ entry_of tables.old.lines log.old 0 call now ∷ log.old) × (reply ≡ Replies.reply_to tables.old.lines log.old call now)) }
    ensures err { OnErr result (log.new ≡ log.old) }
    ensures lines { tables.new.lines ≡ tables.old.lines }
    ensures stands { StandsAll log.new tables.new }
{
    let returns = tables.plan_close()?;
    log.append(Entry {
        call,
        at: now,
        caller: 0,
        reply: Reply::Closed,
        sent: SentList::new(alloc),
    })?;
    tables.commit_close(returns);
    Ok(Reply::Closed)
}

/// A call behind a Close. The tables stay as they are.
pub(crate) fn enter_shut(
    alloc: Global,
    tables: &CoreShards,
    log: &mut Log,
    call: Call,
    now: Moment,
) -> Result<Reply, NoMemory>
    requires stands { StandsAll log.old tables.now }
    requires comes { may_come tables.now.lines log.old call ≡ true }
    requires shut { is_closed log.old ≡ true }
    ensures ok { IfOk result (λ reply. (log.new ≡ entry_of tables.now.lines log.old 0 call now ∷ log.old) × (reply ≡ Replies.reply_to tables.now.lines log.old call now)) }
    ensures err { OnErr result (log.new ≡ log.old) }
    ensures stands { StandsAll log.new tables.now }
{
    let reply = reply_shut(tables, &call);
    log.append(Entry {
        call,
        at: now,
        caller: 0,
        reply,
        sent: SentList::new(alloc),
    })?;
    Ok(reply)
}

// The reply to a call behind a Close.
fn reply_shut(tables: &CoreShards, call: &Call) -> Reply
    ensures { (h : History) (now : ℕ) → StandsAll h tables.now → is_closed h ≡ true → result ≡ Replies.reply_to tables.now.lines h call.now now }
{
    match call {
        Call::Hear { psp, input } => reply_heard(tables, psp, input),
        Call::Deliver(_n) => Reply::Ack(Some(Code::Closed)),
        Call::Lose(_n) => Reply::Ack(Some(Code::Closed)),
        Call::Late(_txn) => Reply::Ack(Some(Code::Closed)),
        Call::Close => Reply::Ack(Some(Code::Closed)),
    }
}

// The reply to what a PSP sends.
fn reply_heard(tables: &CoreShards, psp: &PspName, input: &Input) -> Reply
    ensures { (h : History) → StandsAll h tables.now → result ≡ shut_reply tables.now.lines h (heard_from psp.now input.now) }
{
    match input {
        Input::Good(message) => reply_said(tables, psp, message),
        Input::Bad(_fault) => Reply::Ack(Some(Code::Format)),
    }
}

// The reply to a message that was read.
fn reply_said(tables: &CoreShards, psp: &PspName, message: &Message) -> Reply
    ensures { (h : History) → StandsAll h tables.now → result ≡ shut_reply tables.now.lines h (heard_from psp.now (AnInput.Good message.now)) }
{
    match message {
        Message::Check(question) => reply_check(tables, psp, &question.txn),
        _ => Reply::Ack(Some(Code::Closed)),
    }
}

// The reply to a question for a status.
fn reply_check(tables: &CoreShards, psp: &PspName, txn: &TxnId) -> Reply
    ensures { (h : History) → StandsAll h tables.now → result ≡ Replies.reply_check psp.now (outcome_of tables.now.lines txn.now h) (opening tables.now.lines txn.now h) }
{
    let outcome = tables.outcome(txn);
    match tables.opening(txn) {
        None => Reply::Ack(Some(Code::NoTxn)),
        Some(opening) => status(opening, psp, outcome),
    }
}

// The outcome, told to a PSP of either side.
fn status(opening: &Opening, psp: &PspName, outcome: Option<Outcome>) -> Reply
    ensures { result ≡ Replies.reply_check psp.now outcome (Some opening.now) }
{
    let bytes = psp.bytes();
    if bytes == asking(&opening.terms) || bytes == asked(&opening.terms) {
        Reply::Status(outcome)
    } else {
        Reply::Ack(Some(Code::NotYours))
    }
}

// The PSP of the side that asks.
fn asking(terms: &PayReq) -> &[u8]
    ensures { result.now ≡ Places.asking terms.now }
{
    match terms.kind {
        Kind::Pay => provider(terms.payer.bytes()),
        Kind::Collect => provider(terms.payee.bytes()),
    }
}

// The PSP of the side that is asked.
fn asked(terms: &PayReq) -> &[u8]
    ensures { result.now ≡ Places.asked terms.now }
{
    match terms.kind {
        Kind::Pay => provider(terms.payee.bytes()),
        Kind::Collect => provider(terms.payer.bytes()),
    }
}

//! The lines of a journal.
ghost use Rattle.std.specs.Prelude.{◌≡◌, ◌++◌, ◌+◌, ◌<◌, ◌^◌, length, decimal, IfOk, OnOk, OnErr};
ghost use Rattle.entry_log.specs.Views.{shown, shown_call};
ghost use Rattle.upi_text.specs.Pieces.{spaced};
ghost use Rattle.upi_text.specs.Journal.{body_text, message_line as message_line_of, sent_line as sent_line_of, sent_lines, heard_text, call_text, entry_line as entry_line_of, entry_lines};

use crate::pieces::{
    fault_word, party_word, push, push_account, push_answer, push_number, push_outcome, push_reply,
    push_sum, push_word, yes_word,
};
use entry_log::{CallView, EntryView};
use std::alloc::Global;
use upi_base::{Body, Call, Input, NoMemory, PspName, Sent, leg_word};

// Appends a space and what a message says.
fn push_body(body: &Body, out: &mut Vec<u8>) -> Result<(), NoMemory>
    ensures { OnOk result (out.new.items ≡ out.old.items ++ spaced (body_text body.now)) }
{
    match body {
        Body::ReqAuth(question) => {
            let question = question.get();
            push_word(b"REQAUTH", out)?;
            push_word(question.txn.bytes(), out)?;
            push_sum(question.amount, out)
        }
        Body::RespAuth { txn, amount, yes } => {
            push_word(b"RESPAUTH", out)?;
            push_word(txn.bytes(), out)?;
            push_sum(*amount, out)?;
            push_word(yes_word(*yes), out)
        }
        Body::Order {
            txn,
            leg,
            amount,
            ac,
            addr: _addr,
            extra: _extra,
        } => {
            push_word(leg_word(*leg), out)?;
            push_word(txn.bytes(), out)?;
            push_sum(*amount, out)?;
            push_account(ac.get(), out)
        }
        Body::LegAnswer { txn, leg, answer } => {
            push_word(b"ANSWER", out)?;
            push_word(txn.bytes(), out)?;
            push_word(leg_word(*leg), out)?;
            push_answer(*answer, out)
        }
        Body::Result {
            txn,
            kind: _kind,
            outcome,
            req_msg: _req_msg,
        } => {
            push_word(b"RESPPAY", out)?;
            push_word(txn.bytes(), out)?;
            push_outcome(*outcome, out)
        }
        Body::Confirm {
            txn,
            kind: _kind,
            outcome,
        } => {
            push_word(b"CONFIRM", out)?;
            push_word(txn.bytes(), out)?;
            push_outcome(*outcome, out)
        }
        Body::Confirmed { txn } => {
            push_word(b"CONFIRMED", out)?;
            push_word(txn.bytes(), out)
        }
    }
}

/// Appends the M line of a message of a number, without its end. At want of memory a part may be
/// appended.
pub fn message_line(n: u64, sent: &Sent, out: &mut Vec<u8>) -> Result<(), NoMemory>
    ensures { OnOk result (out.new.items ≡ out.old.items ++ message_line_of n sent.now) }
{
    push(b"M", out)?;
    push_number(n, out)?;
    push_word(party_word(&sent.from), out)?;
    push_word(party_word(&sent.to), out)?;
    push_body(&sent.body, out)
}

// Appends the line of a message of a number.
fn push_sent(n: u64, sent: &Sent, out: &mut Vec<u8>) -> Result<(), NoMemory>
    ensures { OnOk result (out.new.items ≡ out.old.items ++ sent_line_of n sent.now) }
{
    message_line(n, sent, out)?;
    push(b"\n", out)
}

// Appends the lines of messages that are numbered from `first`.
fn push_all(first: u64, sent: &[Sent], out: &mut Vec<u8>) -> Result<(), NoMemory>
    requires { first + length sent.now < 2 ^ 64 }
    ensures { OnOk result (out.new.items ≡ out.old.items ++ sent_lines first sent.now) }
{
    let mut n = first;
    for message in sent {
        push_sent(n, message, out)?;
        n += 1;
    }
    Ok(())
}

// Appends a space and what a PSP sends.
fn push_heard(
    alloc: Global,
    psp: &PspName,
    input: &Input,
    out: &mut Vec<u8>,
) -> Result<(), NoMemory>
    ensures { OnOk result (out.new.items ≡ out.old.items ++ spaced (heard_text psp.now input.now)) }
{
    match input {
        Input::Good(message) => {
            push_word(b"HEAR", out)?;
            push_word(psp.bytes(), out)?;
            push(b" ", out)?;
            upi_msg::text(alloc, message, out)
        }
        Input::Bad(bad) => {
            push_word(b"BAD", out)?;
            push_word(psp.bytes(), out)?;
            push_word(bad.path.bytes(), out)?;
            push_word(fault_word(bad.why), out)
        }
    }
}

// Appends a space and the word of a call that takes a message, with the message's number.
fn push_taking(call: &[u8], n: u64, out: &mut Vec<u8>) -> Result<(), NoMemory>
    ensures { OnOk result (out.new.items ≡ out.old.items ++ spaced (call.now ++ spaced (decimal n))) }
{
    push_word(call, out)?;
    push_number(n, out)
}

// Appends a space and a call.
fn push_call(alloc: Global, call: &Call, out: &mut Vec<u8>) -> Result<(), NoMemory>
    ensures { OnOk result (out.new.items ≡ out.old.items ++ spaced (call_text call.now)) }
{
    match call {
        Call::Hear { psp, input } => push_heard(alloc, psp, input, out),
        Call::Deliver(n) => push_taking(b"DELIVER", *n, out),
        Call::Lose(n) => push_taking(b"LOSE", *n, out),
        Call::Late(txn) => {
            push_word(b"LATE", out)?;
            push_word(txn.bytes(), out)
        }
        Call::Close => push_word(b"CLOSE", out),
    }
}

// Appends a space and the call of an entry.
fn push_shown(alloc: Global, call: &CallView<'_>, out: &mut Vec<u8>) -> Result<(), NoMemory>
    ensures { OnOk result (out.new.items ≡ out.old.items ++ spaced (call_text (shown_call call.now))) }
{
    match call {
        CallView::Whole(call) => push_call(alloc, call, out),
        CallView::Deliver(n) => push_taking(b"DELIVER", *n, out),
        CallView::Lose(n) => push_taking(b"LOSE", *n, out),
        CallView::Close => push_word(b"CLOSE", out),
    }
}

// Appends the E line of an entry.
fn push_entry(
    alloc: Global,
    place: u64,
    entry: &EntryView<'_>,
    out: &mut Vec<u8>,
) -> Result<(), NoMemory>
    ensures { OnOk result (out.new.items ≡ out.old.items ++ entry_line_of place (shown entry.now)) }
{
    push(b"E", out)?;
    push_number(place, out)?;
    push_number(entry.caller, out)?;
    push_number(entry.at.get(), out)?;
    push_shown(alloc, &entry.call, out)?;
    push(b" =", out)?;
    push_reply(entry.reply, out)?;
    push(b"\n", out)
}

/// Appends the lines of an entry: its E line with its place, counted from 1, and an M line for each
/// message that it sends, numbered from `first`. At want of memory nothing is appended.
pub fn entry_text(
    alloc: Global,
    entry: &EntryView<'_>,
    place: u64,
    first: u64,
    out: &mut Vec<u8>,
) -> Result<(), NoMemory>
    requires { first + length entry.now.sent.now < 2 ^ 64 }
    ensures ok { OnOk result (out.new.items ≡ out.old.items ++ entry_lines (shown entry.now) place first) }
    ensures err { OnErr result (out.new.items ≡ out.old.items) }
{
    let mut text = Vec::new(alloc);
    push_entry(alloc, place, entry, &mut text)?;
    push_all(first, entry.sent, &mut text)?;
    out.extend_from_slice(&text)?;
    Ok(())
}

//! The JSON of replies to a PSP.
ghost use Rattle.std.specs.Prelude.{◌≡◌, ◌++◌, OnOk, OnErr, codes, option_map};
ghost use Rattle.serde_json.specs.Data.{string};
ghost use Rattle.serde_json.specs.Written.{compact_text};
ghost use Rattle.upi_base.specs.Words.{code_text};
ghost use Rattle.upi_msg.specs.Pieces.{later_text};
ghost use Rattle.upi_msg.specs.Sending;

use crate::sent::{failure_code, numbered, push_opening, push_result};
use crate::words::api_text;
use crate::write::{WRITTEN, push_head_of, push_member};
use std::alloc::Global;
use upi_base::{
    Chk, Code, Done, Head, Input, Message, Moment, NoMemory, Outcome, Reply, code_word,
    outcome_word,
};

// The root of a message that was heard.
fn message_root(message: &Message) -> &'static [u8]
    ensures { result.now ≡ Sending.message_root message.now }
{
    match message {
        Message::Pay(_request) => b"ReqPay",
        Message::AuthAnswer(_answer) => b"RespAuthDetails",
        Message::Check(_check) => b"ReqChkTxn",
        Message::Confirmed(_answer) => b"RespTxnConfirmation",
        Message::Foreign { api, head: _head } => api_text(*api),
    }
}

// The `Head` of a message that was heard.
fn message_head<'a>(message: &'a Message) -> &'a Head
    ensures { result.now ≡ Sending.message_head message.entry.now }
{
    match message {
        Message::Pay(request) => &request.get().head,
        Message::AuthAnswer(answer) => &answer.get().head,
        Message::Check(check) => &check.head,
        Message::Confirmed(answer) => &answer.get().head,
        Message::Foreign { api: _api, head } => head,
    }
}

// The root that an acknowledgement names.
fn heard_root(input: &Input) -> &'static [u8]
    ensures { result.now ≡ Sending.heard_root input.now }
{
    match input {
        Input::Good(message) => message_root(message),
        Input::Bad(_fault) => b"",
    }
}

// The name of the message that an acknowledgement answers.
fn heard_name<'a>(input: &'a Input) -> &'a [u8]
    ensures { result.now ≡ Sending.heard_name input.entry.now }
{
    match input {
        Input::Good(message) => message_head(message).msg_id.bytes(),
        Input::Bad(_fault) => b"",
    }
}

// Appends the code of a refusal.
fn push_err(out: &mut Vec<u8>, code: Option<Code>) -> Result<(), NoMemory>
    ensures { OnOk result (out.new.items ≡ out.old.items
        ++ later_text (codes "err") (option_map string (option_map code_text code))) }
{
    if let Some(code) = code {
        push_member(out, b",\"err\":", code_word(code))?;
    }
    Ok(())
}

// Appends an acknowledgement.
fn push_ack(out: &mut Vec<u8>, name: &[u8], code: Option<Code>, req: &[u8]) -> Result<(), NoMemory>
    ensures { OnOk result (out.new.items
        ≡ out.old.items ++ compact_text (Sending.ack_tree name.now code req.now)) }
{
    push_member(out, b"{\"Ack\":{\"api\":", name)?;
    push_err(out, code)?;
    push_member(out, b",\"reqMsgId\":", req)?;
    out.extend_from_slice(b"}}")?;
    Ok(())
}

// The word of a status.
fn status_word(outcome: Option<Outcome>) -> &'static [u8]
    ensures { result.now ≡ Sending.status_word outcome }
{
    match outcome {
        None => b"PENDING",
        Some(outcome) => outcome_word(outcome),
    }
}

// The code of a status.
fn status_code(outcome: Option<Outcome>) -> Option<Code>
    ensures { result ≡ Sending.status_code outcome }
{
    match outcome {
        None => None,
        Some(outcome) => failure_code(outcome),
    }
}

// Appends a status of this name.
fn push_named_status(
    out: &mut Vec<u8>,
    check: &Chk,
    outcome: Option<Outcome>,
    name: &[u8],
    at: Moment,
) -> Result<(), NoMemory>
    ensures { OnOk result (out.new.items
        ≡ out.old.items ++ compact_text (Sending.status_tree check.now outcome name.now at)) }
{
    push_opening(out, b"RespChkTxn")?;
    push_head_of(out, name, b"SWITCH", at, check.head.ver)?;
    let code = status_code(outcome);
    let word = status_word(outcome);
    let req = check.head.msg_id.bytes();
    push_result(out, code, req, word, &check.txn, b"ChkTxn")?;
    out.push(b'}')?;
    Ok(())
}

// Appends a status.
fn push_status(
    alloc: Global,
    out: &mut Vec<u8>,
    check: &Chk,
    outcome: Option<Outcome>,
    place: u64,
    at: Moment,
) -> Result<(), NoMemory>
    ensures { OnOk result (out.new.items ≡ out.old.items ++ compact_text
        (Sending.status_tree check.now outcome (Sending.numbered (codes "S") place) at)) }
{
    let name = numbered(alloc, b"S", place)?;
    push_named_status(out, check, outcome, &name, at)?;
    Ok(())
}

// Appends the status that a message asks for.
fn push_status_of(
    alloc: Global,
    out: &mut Vec<u8>,
    message: &Message,
    outcome: Option<Outcome>,
    place: u64,
    at: Moment,
) -> Result<(), NoMemory>
    ensures { OnOk result (out.new.items
        ≡ out.old.items ++ Sending.status_text message.now outcome place at) }
{
    match message {
        Message::Pay(_request) => Ok(()),
        Message::AuthAnswer(_answer) => Ok(()),
        Message::Check(check) => push_status(alloc, out, check, outcome, place, at),
        Message::Confirmed(_answer) => Ok(()),
        Message::Foreign {
            api: _api,
            head: _head,
        } => Ok(()),
    }
}

// Appends the status that was asked for.
fn push_status_reply(
    alloc: Global,
    out: &mut Vec<u8>,
    input: &Input,
    outcome: Option<Outcome>,
    place: u64,
    at: Moment,
) -> Result<(), NoMemory>
    ensures { OnOk result (out.new.items
        ≡ out.old.items ++ Sending.status_reply input.now outcome place at) }
{
    match input {
        Input::Good(message) => push_status_of(alloc, out, message, outcome, place, at),
        Input::Bad(_fault) => Ok(()),
    }
}

// Appends the reply.
fn push_reply(
    alloc: Global,
    out: &mut Vec<u8>,
    input: &Input,
    reply: Reply,
    place: u64,
    at: Moment,
) -> Result<(), NoMemory>
    ensures { OnOk result (out.new.items
        ≡ out.old.items ++ Sending.reply_text input.now reply place at) }
{
    match reply {
        Reply::Ack(code) => push_ack(out, heard_root(input), code, heard_name(input)),
        Reply::Status(outcome) => push_status_reply(alloc, out, input, outcome, place, at),
        Reply::Leg(_answer) => Ok(()),
        Reply::Told => Ok(()),
        Reply::Lost => Ok(()),
        Reply::Acted => Ok(()),
        Reply::NotDue => Ok(()),
        Reply::Closed => Ok(()),
    }
}

/// Appends the JSON reply to a PSP for what it sent: an acknowledgement, or the status that a
/// `ReqChkTxn` asked for, at the moment `at`. For any other reply, or a status where none was asked
/// for, there is nothing to append. It fails only for want of memory, and then leaves `out` as it
/// was.
pub fn reply_text(
    alloc: Global,
    input: &Input,
    done: &Done,
    at: Moment,
    out: &mut Vec<u8>,
) -> Result<(), NoMemory>
    ensures ok { OnOk result (out.new.items
        ≡ out.old.items ++ Sending.reply_text input.now done.now.reply done.now.place at) }
    ensures err { OnErr result (out.new.items ≡ out.old.items) }
{
    let mut written = Vec::with_capacity(alloc, WRITTEN)?;
    push_reply(alloc, &mut written, input, done.reply, done.place, at)?;
    out.extend_from_slice(&written)?;
    Ok(())
}

//! The written form of a message: compact JSON, the members in byte order of their names.
ghost use Rattle.std.specs.Prelude.{◌≡◌, ◌++◌, [], OnOk, OnErr, codes, string_bytes, option_map};
ghost use Rattle.serde_json.specs.Data.{string};
ghost use Rattle.serde_json.specs.Written.{compact_text};
ghost use Rattle.json.specs.Print.{escape, quoted};
ghost use Rattle.upi_msg.specs.Tree.{only, api_text, head_tree, head_tree_of, rules_tree, account_payees_tree, payer_tree, payee_tree, txn_tree, payment_tree, pay_tree, answer_payer_tree, resp_tree, outcome_tree, answer_tree, check_tree, confirmed_tree, message_tree, message_text};
ghost use Rattle.upi_base.specs.Words.{code_text};
ghost use Rattle.upi_base.specs.Money.{paise_text};
ghost use Rattle.upi_base.specs.Time.{moment_text};
ghost use Rattle.upi_msg.specs.Pieces.{front_text, later_text, open_text, mode_text, purpose_text, account_between, party_front, terms_text};

use crate::quote::{push_escaped, push_quoted};
use crate::words::{api_text, kind_text, result_text, ver_end};
use itoa::Buffer;
use std::alloc::Global;
use upi_base::{
    AccountRef, Addr, Api, AuthResp, Chk, Code, ConfResp, Extra, Head, Message, Minutes, Moment,
    NoMemory, Note, Paise, PayReq, Rule, Text, TxnId, Ver, code_word,
};

/// Room for the text of most messages, in bytes.
pub(crate) const WRITTEN: usize = 1_024;

// Appends these bytes, and the string of a small text.
pub(crate) fn push_text<R: Rule, const N: usize>(
    out: &mut Vec<u8>,
    before: &[u8],
    text: &Text<R, N>,
) -> Result<(), NoMemory>
    ensures { OnOk result (out.new.items ≡ out.old.items ++ (before.now ++ quoted text.now)) }
{
    push_member(out, before, text.bytes())
}

// Appends these bytes, and the string of those.
pub(crate) fn push_member(out: &mut Vec<u8>, before: &[u8], text: &[u8]) -> Result<(), NoMemory>
    ensures { OnOk result (out.new.items ≡ out.old.items ++ (before.now ++ quoted text.now)) }
{
    out.extend_from_slice(before)?;
    push_quoted(out, text)
}

// Appends these bytes, and what stands in a string for those.
fn push_inside(out: &mut Vec<u8>, before: &[u8], text: &[u8]) -> Result<(), NoMemory>
    ensures { OnOk result (out.new.items ≡ out.old.items ++ (before.now ++ escape text.now)) }
{
    out.extend_from_slice(before)?;
    push_escaped(out, text)
}

// The same, where no byte needs an escape.
fn push_plain(out: &mut Vec<u8>, before: &[u8], text: &[u8]) -> Result<(), NoMemory>
    requires { escape text.now ≡ text.now }
    ensures { OnOk result (out.new.items ≡ out.old.items ++ (before.now ++ escape text.now)) }
{
    out.extend_from_slice(before)?;
    out.extend_from_slice(text)?;
    Ok(())
}

// Appends what stands in a string for a moment.
fn push_moment(out: &mut Vec<u8>, ts: Moment) -> Result<(), NoMemory>
    ensures { OnOk result (out.new.items ≡ out.old.items ++ escape (moment_text ts)) }
{
    // The getter's clause says that the moment is in range.
    let _ = ts.get();
    ts.write(out)?;
    Ok(())
}

// Appends what stands in a string for a sum.
fn push_paise(out: &mut Vec<u8>, amount: Paise) -> Result<(), NoMemory>
    ensures { OnOk result (out.new.items ≡ out.old.items ++ escape (paise_text amount)) }
{
    amount.write(out)?;
    Ok(())
}

// Appends a `Head` of these texts, a moment and a version.
pub(crate) fn push_head_of(
    out: &mut Vec<u8>,
    msg: &[u8],
    org: &[u8],
    ts: Moment,
    ver: Ver,
) -> Result<(), NoMemory>
    ensures { OnOk result (out.new.items
        ≡ out.old.items ++ compact_text (head_tree_of msg.now org.now ts ver)) }
{
    push_inside(out, b"{\"msgId\":\"", msg)?;
    push_inside(out, b"\",\"orgId\":\"", org)?;
    out.extend_from_slice(b"\",\"ts\":\"")?;
    push_moment(out, ts)?;
    out.extend_from_slice(ver_end(ver))?;
    Ok(())
}

// Appends a `Head`.
fn push_head(out: &mut Vec<u8>, head: &Head) -> Result<(), NoMemory>
    ensures { OnOk result (out.new.items ≡ out.old.items ++ compact_text (head_tree head.now)) }
{
    push_plain(out, b"{\"msgId\":\"", head.msg_id.bytes())?;
    push_plain(out, b"\",\"orgId\":\"", head.org.bytes())?;
    out.extend_from_slice(b"\",\"ts\":\"")?;
    push_moment(out, head.ts)?;
    out.extend_from_slice(ver_end(head.ver))?;
    Ok(())
}

// Appends an `Ac` with its name: `front` up to the bank's code, and `end` from behind the number on.
fn push_account(
    out: &mut Vec<u8>,
    front: &[u8],
    ac: &AccountRef,
    end: &[u8],
) -> Result<(), NoMemory>
    ensures { OnOk result (out.new.items ≡ out.old.items ++ account_between front.now ac.now end.now) }
{
    push_plain(out, front, ac.bank.bytes())?;
    push_plain(
        out,
        b"0000000\"},{\"name\":\"ACNUM\",\"value\":\"",
        ac.num.bytes(),
    )?;
    out.extend_from_slice(end)?;
    Ok(())
}

// Appends how a party begins: these bytes, or the account that it has, and those.
fn push_front(
    out: &mut Vec<u8>,
    ac: &Option<AccountRef>,
    bare: &[u8],
    end: &[u8],
) -> Result<(), NoMemory>
    ensures { OnOk result (out.new.items
        ≡ out.old.items ++ party_front ac.now bare.now end.now) }
{
    match ac {
        Some(ac) => push_account(
            out,
            b"{\"Ac\":{\"Detail\":[{\"name\":\"IFSC\",\"value\":\"",
            ac,
            end,
        )?,
        None => out.extend_from_slice(bare)?,
    }
    Ok(())
}

// Appends the rules that a payment may have, before the other members of its `Txn`.
fn push_rules_front(out: &mut Vec<u8>, expire: &Option<Minutes>) -> Result<(), NoMemory>
    ensures { OnOk result (out.new.items
        ≡ out.old.items ++ front_text (codes "Rules") (option_map rules_tree expire.now)) }
{
    if let Some(minutes) = expire {
        let mut buffer = Buffer::new();
        let count = buffer.format(minutes.get()).as_bytes();
        push_plain(
            out,
            b"\"Rules\":{\"Rule\":[{\"name\":\"EXPIREAFTER\",\"value\":\"",
            count,
        )?;
        out.extend_from_slice(b"\"}]},")?;
    }
    Ok(())
}

// Appends the note that a payment may have, behind a text that isn't closed yet. So do the two
// below.
fn push_note(out: &mut Vec<u8>, note: &Option<Note>) -> Result<(), NoMemory>
    ensures { OnOk result (out.new.items ≡ out.old.items ++ open_text (codes "note") note.now) }
{
    if let Some(note) = note {
        push_inside(out, b"\",\"note\":\"", note.bytes())?;
    }
    Ok(())
}

// Appends the `initiationMode` of a payment of version 2.0.
fn push_mode(out: &mut Vec<u8>, extra: &Option<Extra>) -> Result<(), NoMemory>
    ensures { OnOk result (out.new.items
        ≡ out.old.items ++ open_text (codes "initiationMode") (option_map mode_text extra.now)) }
{
    if let Some(extra) = extra {
        push_plain(out, b"\",\"initiationMode\":\"", extra.mode.bytes())?;
    }
    Ok(())
}

// Appends the `purpose` of a payment of version 2.0.
fn push_purpose(out: &mut Vec<u8>, extra: &Option<Extra>) -> Result<(), NoMemory>
    ensures { OnOk result (out.new.items
        ≡ out.old.items ++ open_text (codes "purpose") (option_map purpose_text extra.now)) }
{
    if let Some(extra) = extra {
        push_plain(out, b"\",\"purpose\":\"", extra.purpose.bytes())?;
    }
    Ok(())
}

// Appends a party with an amount and an address.
pub(crate) fn push_payer(
    out: &mut Vec<u8>,
    ac: &Option<AccountRef>,
    amount: Paise,
    addr: &Addr,
) -> Result<(), NoMemory>
    ensures { OnOk result (out.new.items
        ≡ out.old.items ++ compact_text (payer_tree ac.now amount addr.now)) }
{
    push_front(
        out,
        ac,
        b"{\"Amount\":{\"curr\":\"INR\",\"value\":\"",
        b"\"}],\"addrType\":\"ACCOUNT\"},\"Amount\":{\"curr\":\"INR\",\"value\":\"",
    )?;
    push_paise(out, amount)?;
    push_plain(out, b"\"},\"addr\":\"", addr.bytes())?;
    out.extend_from_slice(b"\"}")?;
    Ok(())
}

// Appends a party with an address.
pub(crate) fn push_payee(
    out: &mut Vec<u8>,
    ac: &Option<AccountRef>,
    addr: &Addr,
) -> Result<(), NoMemory>
    ensures { OnOk result (out.new.items
        ≡ out.old.items ++ compact_text (payee_tree ac.now addr.now)) }
{
    push_front(
        out,
        ac,
        b"{\"addr\":\"",
        b"\"}],\"addrType\":\"ACCOUNT\"},\"addr\":\"",
    )?;
    out.extend_from_slice(addr.bytes())?;
    out.extend_from_slice(b"\"}")?;
    Ok(())
}

// Appends a `Txn` up to its type.
fn push_terms(
    out: &mut Vec<u8>,
    expire: &Option<Minutes>,
    id: &TxnId,
    extra: &Option<Extra>,
    note: &Option<Note>,
) -> Result<(), NoMemory>
    ensures { OnOk result (out.new.items
        ≡ out.old.items ++ terms_text expire.now id.now extra.now note.now) }
{
    out.push(b'{')?;
    push_rules_front(out, expire)?;
    push_plain(out, b"\"id\":\"", id.bytes())?;
    push_mode(out, extra)?;
    push_note(out, note)?;
    push_purpose(out, extra)?;
    Ok(())
}

// Appends a `Txn` with a type.
pub(crate) fn push_txn(
    out: &mut Vec<u8>,
    expire: &Option<Minutes>,
    id: &TxnId,
    extra: &Option<Extra>,
    note: &Option<Note>,
    word: &[u8],
) -> Result<(), NoMemory>
    ensures { OnOk result (out.new.items
        ≡ out.old.items ++ compact_text (txn_tree expire.now id.now extra.now note.now word.now)) }
{
    push_terms(out, expire, id, extra, note)?;
    push_inside(out, b"\",\"type\":\"", word)?;
    out.extend_from_slice(b"\"}")?;
    Ok(())
}

// Appends the `Txn` of a payment.
fn push_payment(out: &mut Vec<u8>, request: &PayReq) -> Result<(), NoMemory>
    ensures { OnOk result (out.new.items ≡ out.old.items ++ compact_text (payment_tree request.now)) }
{
    push_terms(
        out,
        &request.expire,
        &request.txn,
        &request.extra,
        &request.note,
    )?;
    push_plain(out, b"\",\"type\":\"", kind_text(request.kind))?;
    out.extend_from_slice(b"\"}")?;
    Ok(())
}

// Appends a `ReqPay`.
pub(crate) fn push_pay(out: &mut Vec<u8>, request: &PayReq) -> Result<(), NoMemory>
    ensures { OnOk result (out.new.items
        ≡ out.old.items ++ compact_text (only (codes "ReqPay") (pay_tree request.now))) }
{
    out.extend_from_slice(b"{\"ReqPay\":{\"Head\":")?;
    push_head(out, &request.head)?;
    out.extend_from_slice(b",\"Payees\":{\"Payee\":[")?;
    push_payee(out, &request.payee_ac, &request.payee)?;
    out.extend_from_slice(b"]},\"Payer\":")?;
    push_payer(out, &request.payer_ac, request.amount, &request.payer)?;
    out.extend_from_slice(b",\"Txn\":")?;
    push_payment(out, request)?;
    out.extend_from_slice(b"}}")?;
    Ok(())
}

// Appends the `Payees` of an answer that gives the payee's account.
fn push_payees(out: &mut Vec<u8>, ac: &Option<AccountRef>) -> Result<(), NoMemory>
    ensures { OnOk result (out.new.items
        ≡ out.old.items ++ later_text (codes "Payees") (option_map account_payees_tree ac.now)) }
{
    if let Some(ac) = ac {
        push_account(
            out,
            b",\"Payees\":{\"Payee\":[{\"Ac\":{\"Detail\":[{\"name\":\"IFSC\",\"value\":\"",
            ac,
            b"\"}],\"addrType\":\"ACCOUNT\"}}]}",
        )?;
    }
    Ok(())
}

// Appends a party with an amount.
pub(crate) fn push_answer_payer(
    out: &mut Vec<u8>,
    ac: &Option<AccountRef>,
    amount: Paise,
) -> Result<(), NoMemory>
    ensures { OnOk result (out.new.items
        ≡ out.old.items ++ compact_text (answer_payer_tree ac.now amount)) }
{
    push_front(
        out,
        ac,
        b"{\"Amount\":{\"curr\":\"INR\",\"value\":\"",
        b"\"}],\"addrType\":\"ACCOUNT\"},\"Amount\":{\"curr\":\"INR\",\"value\":\"",
    )?;
    push_paise(out, amount)?;
    out.extend_from_slice(b"\"}}")?;
    Ok(())
}

// Appends the code of a failure, before the other members of a `Resp`.
fn push_code_front(out: &mut Vec<u8>, code: Option<Code>) -> Result<(), NoMemory>
    ensures { OnOk result (out.new.items ≡ out.old.items
        ++ front_text (codes "errCode") (option_map string (option_map code_text code))) }
{
    if let Some(code) = code {
        push_member(out, b"\"errCode\":", code_word(code))?;
        out.push(b',')?;
    }
    Ok(())
}

// Appends a `Resp`.
pub(crate) fn push_resp(
    out: &mut Vec<u8>,
    code: Option<Code>,
    req: &[u8],
    word: &[u8],
) -> Result<(), NoMemory>
    ensures { OnOk result (out.new.items ≡ out.old.items
        ++ compact_text (resp_tree (option_map code_text code) req.now word.now)) }
{
    out.push(b'{')?;
    push_code_front(out, code)?;
    push_member(out, b"\"reqMsgId\":", req)?;
    push_member(out, b",\"result\":", word)?;
    out.push(b'}')?;
    Ok(())
}

// Appends a `Resp` that answers no message.
pub(crate) fn push_outcome(
    out: &mut Vec<u8>,
    code: Option<Code>,
    word: &[u8],
) -> Result<(), NoMemory>
    ensures { OnOk result (out.new.items ≡ out.old.items
        ++ compact_text (outcome_tree (option_map code_text code) word.now)) }
{
    out.push(b'{')?;
    push_code_front(out, code)?;
    push_member(out, b"\"result\":", word)?;
    out.push(b'}')?;
    Ok(())
}

// Appends a `RespAuthDetails`.
fn push_answer(out: &mut Vec<u8>, answer: &AuthResp) -> Result<(), NoMemory>
    ensures { OnOk result (out.new.items
        ≡ out.old.items ++ compact_text (only (codes "RespAuthDetails") (answer_tree answer.now))) }
{
    out.extend_from_slice(b"{\"RespAuthDetails\":{\"Head\":")?;
    push_head(out, &answer.head)?;
    push_payees(out, &answer.payee_ac)?;
    out.extend_from_slice(b",\"Payer\":")?;
    push_answer_payer(out, &answer.payer_ac, answer.amount)?;
    out.extend_from_slice(b",\"Resp\":")?;
    let word = result_text(answer.yes);
    push_resp(out, None, answer.req_msg.bytes(), word)?;
    push_text(out, b",\"Txn\":{\"id\":", &answer.txn)?;
    out.extend_from_slice(b"}}}")?;
    Ok(())
}

// Appends a `ReqChkTxn`.
fn push_check(out: &mut Vec<u8>, check: &Chk) -> Result<(), NoMemory>
    ensures { OnOk result (out.new.items
        ≡ out.old.items ++ compact_text (only (codes "ReqChkTxn") (check_tree check.now))) }
{
    out.extend_from_slice(b"{\"ReqChkTxn\":{\"Head\":")?;
    push_head(out, &check.head)?;
    push_text(out, b",\"Txn\":{\"id\":", &check.txn)?;
    out.extend_from_slice(b"}}}")?;
    Ok(())
}

// Appends a `RespTxnConfirmation`.
fn push_confirmed(out: &mut Vec<u8>, answer: &ConfResp) -> Result<(), NoMemory>
    ensures { OnOk result (out.new.items ≡ out.old.items
        ++ compact_text (only (codes "RespTxnConfirmation") (confirmed_tree answer.now))) }
{
    out.extend_from_slice(b"{\"RespTxnConfirmation\":{\"Head\":")?;
    push_head(out, &answer.head)?;
    push_text(out, b",\"Resp\":{\"reqMsgId\":", &answer.req_msg)?;
    push_text(out, b"},\"Txn\":{\"id\":", &answer.txn)?;
    out.extend_from_slice(b"}}}")?;
    Ok(())
}

// Appends a message that a PSP may not send: its `Head` alone.
fn push_foreign(out: &mut Vec<u8>, api: Api, head: &Head) -> Result<(), NoMemory>
    ensures { OnOk result (out.new.items ≡ out.old.items
        ++ compact_text (only (api_text api) (only (codes "Head") (head_tree head.now)))) }
{
    push_member(out, b"{", api_text(api))?;
    out.extend_from_slice(b":{\"Head\":")?;
    push_head(out, head)?;
    out.extend_from_slice(b"}}")?;
    Ok(())
}

// Appends a message.
fn push_message(out: &mut Vec<u8>, message: &Message) -> Result<(), NoMemory>
    ensures { OnOk result (out.new.items ≡ out.old.items ++ message_text message.now) }
{
    match message {
        Message::Pay(request) => push_pay(out, request.get()),
        Message::AuthAnswer(answer) => push_answer(out, answer.get()),
        Message::Check(check) => push_check(out, check),
        Message::Confirmed(answer) => push_confirmed(out, answer.get()),
        Message::Foreign { api, head } => push_foreign(out, *api, head),
    }
}

// Writes a message into a buffer that is empty, or nothing.
fn write_first(out: &mut Vec<u8>, message: &Message) -> Result<(), NoMemory>
    ensures ok { OnOk result (out.new.items ≡ message_text message.now) }
    ensures err { OnErr result (out.new.items ≡ []) }
{
    out.clear();
    match push_message(out, message) {
        Ok(()) => Ok(()),
        Err(error) => {
            out.clear();
            Err(error)
        }
    }
}

// Appends a message to a buffer, or nothing.
fn append(alloc: Global, message: &Message, out: &mut Vec<u8>) -> Result<(), NoMemory>
    ensures ok { OnOk result (out.new.items ≡ out.old.items ++ message_text message.now) }
    ensures err { OnErr result (out.new.items ≡ out.old.items) }
{
    let mut written = Vec::with_capacity(alloc, WRITTEN)?;
    push_message(&mut written, message)?;
    out.extend_from_slice(&written)?;
    Ok(())
}

/// Appends the written form of a message: compact JSON, the members in byte order of their names,
/// with exactly the members that the message keeps. It fails only for want of memory, and then
/// leaves `out` as it was.
pub fn text(alloc: Global, message: &Message, out: &mut Vec<u8>) -> Result<(), NoMemory>
    ensures ok { OnOk result (out.new.items ≡ out.old.items ++ message_text message.now) }
    ensures err { OnErr result (out.new.items ≡ out.old.items) }
{
    if out.is_empty() {
        write_first(out, message)
    } else {
        append(alloc, message, out)
    }
}

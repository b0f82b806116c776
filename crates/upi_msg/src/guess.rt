//! A guess at what a text says, for the form that nearly every payment has: the written one. What is
//! guessed counts only where it is written as that very text.
ghost use Rattle.std.specs.Prelude.{◌≡◌, IfSome, IfOk, OnOk};
ghost use Rattle.serde_json.specs.Written.{compact_text};
ghost use Rattle.upi_msg.specs.Read;
ghost use Rattle.upi_msg.specs.Tree.{only, pay_tree};
ghost use Rattle.std.specs.Prelude.{codes};
ghost use Rattle.upi_msg.specs.Typed.{IsTypedHead, IsTypedAccount, IsTypedAc, IsTypedNote, IsTypedMinutes, IsTypedExtra, IsTypedPay};

use crate::pay::{Payee, Payer, Terms, request};
use crate::write::push_pay;
use std::alloc::Global;
use upi_base::{
    AcNum, AccountRef, Addr, BankCode, Boxed, Extra, Head, Input, Kind, Message, Minutes, Moment,
    MsgId, NoMemory, Note, OrgId, Paise, PayReq, TwoDigits, TxnId, Ver,
};

// The texts that a written payment gives. Those that it may leave out are empty where they are.
#[derive(Clone, Copy)]
struct Spelled<'a> {
    msg_id: &'a [u8],
    org: &'a [u8],
    ts: &'a [u8],
    ver: &'a [u8],
    payee_ac: Account<'a>,
    payee: &'a [u8],
    payer_ac: Account<'a>,
    amount: &'a [u8],
    payer: &'a [u8],
    terms: Words<'a>,
}

// The texts of an account.
#[derive(Clone, Copy)]
struct Account<'a> {
    ifsc: &'a [u8],
    num: &'a [u8],
}

// The texts of a `Txn`.
#[derive(Clone, Copy)]
struct Words<'a> {
    minutes: &'a [u8],
    txn: &'a [u8],
    mode: &'a [u8],
    note: &'a [u8],
    purpose: &'a [u8],
    kind: &'a [u8],
}

// What stands behind these bytes, up to the next quotation mark; and what follows.
fn cut<'a>(text: &'a [u8], before: &[u8]) -> Option<(&'a [u8], &'a [u8])> {
    let rest = text.strip_prefix(before)?;
    let end = memchr::memchr(b'"', rest)?;
    if end <= rest.len() {
        Some(rest.split_at(end))
    } else {
        None
    }
}

// The same, or nothing where these bytes don't stand there.
fn cut_if<'a>(text: &'a [u8], before: &[u8]) -> (&'a [u8], &'a [u8]) {
    match cut(text, before) {
        Some(parts) => parts,
        None => text.split_at(0),
    }
}

// The account that may stand here, and what follows.
fn account_cut<'a>(text: &'a [u8]) -> Option<(Account<'a>, &'a [u8])> {
    let (ifsc, rest) = cut_if(text, b"\"Ac\":{\"Detail\":[{\"name\":\"IFSC\",\"value\":\"");
    if ifsc.is_empty() {
        return Some((Account { ifsc, num: ifsc }, text));
    }
    let (num, rest) = cut(rest, b"\"},{\"name\":\"ACNUM\",\"value\":\"")?;
    let rest = rest.strip_prefix(b"\"}],\"addrType\":\"ACCOUNT\"},")?;
    Some((Account { ifsc, num }, rest))
}

// The words of the `Txn` that stands here.
fn words_cut<'a>(text: &'a [u8]) -> Option<Words<'a>> {
    let (minutes, rest) = cut_if(
        text,
        b"\"Rules\":{\"Rule\":[{\"name\":\"EXPIREAFTER\",\"value\":\"",
    );
    let rest = if minutes.is_empty() {
        rest
    } else {
        rest.strip_prefix(b"\"}]},")?
    };
    let (txn, rest) = cut(rest, b"\"id\":\"")?;
    let (mode, rest) = cut_if(rest, b"\",\"initiationMode\":\"");
    let (note, rest) = cut_if(rest, b"\",\"note\":\"");
    let (purpose, rest) = cut_if(rest, b"\",\"purpose\":\"");
    let (kind, _) = cut(rest, b"\",\"type\":\"")?;
    Some(Words {
        minutes,
        txn,
        mode,
        note,
        purpose,
        kind,
    })
}

// The texts of a payment.
fn payment_cut<'a>(text: &'a [u8]) -> Option<Spelled<'a>> {
    let (msg_id, rest) = cut(text, b"{\"ReqPay\":{\"Head\":{\"msgId\":\"")?;
    let (org, rest) = cut(rest, b"\",\"orgId\":\"")?;
    let (ts, rest) = cut(rest, b"\",\"ts\":\"")?;
    let (ver, rest) = cut(rest, b"\",\"ver\":\"")?;
    let rest = rest.strip_prefix(b"\"},\"Payees\":{\"Payee\":[{")?;
    let (payee_ac, rest) = account_cut(rest)?;
    let (payee, rest) = cut(rest, b"\"addr\":\"")?;
    let rest = rest.strip_prefix(b"\"}]},\"Payer\":{")?;
    let (payer_ac, rest) = account_cut(rest)?;
    let (amount, rest) = cut(rest, b"\"Amount\":{\"curr\":\"INR\",\"value\":\"")?;
    let (payer, rest) = cut(rest, b"\"},\"addr\":\"")?;
    let terms = words_cut(rest.strip_prefix(b"\"},\"Txn\":{")?)?;
    Some(Spelled {
        msg_id,
        org,
        ts,
        ver,
        payee_ac,
        payee,
        payer_ac,
        amount,
        payer,
        terms,
    })
}

// A guess at a `Head`.
fn head_guess(s: &Spelled<'_>) -> Option<Head> {
    let msg_id: MsgId = MsgId::read(s.msg_id)?;
    let org: OrgId = OrgId::read(s.org)?;
    let ts = Moment::read(s.ts)?;
    let ver = match s.ver {
        [b'1', ..] => Ver::One,
        _ => Ver::Two,
    };
    Some(Head {
        msg_id,
        org,
        ts,
        ver,
    })
}

// A guess at an account.
fn account_guess(account: Account<'_>) -> Option<AccountRef> {
    let (bank, _) = account.ifsc.split_at_checked(4)?;
    let bank: BankCode = BankCode::read(bank)?;
    let num: AcNum = AcNum::read(account.num)?;
    Some(AccountRef { bank, num })
}

// A guess at minutes.
fn minutes_guess(digits: &[u8]) -> Option<Minutes> {
    let mut value = 0u32;
    for c in digits {
        if value > 64_800 {
            return None;
        }
        value = value * 10 + u32::from(c.saturating_sub(b'0'));
    }
    Minutes::of(value)
}

// A guess at two digits.
fn digits_guess(text: &[u8]) -> Option<TwoDigits> {
    match text {
        [] => TwoDigits::read(b"00"),
        [_, ..] => TwoDigits::read(text),
    }
}

// A guess at a `Txn`.
fn terms_guess(words: &Words<'_>) -> Option<Terms> {
    let txn: TxnId = TxnId::read(words.txn)?;
    let kind = match words.kind {
        [b'P', ..] => Kind::Pay,
        _ => Kind::Collect,
    };
    let mode = digits_guess(words.mode)?;
    let purpose = digits_guess(words.purpose)?;
    Some(Terms {
        txn,
        kind,
        note: Note::read(words.note),
        expire: minutes_guess(words.minutes),
        mode,
        purpose,
    })
}

// A guess at a payment.
fn guess(text: &[u8]) -> Option<PayReq> {
    let s = payment_cut(text)?;
    let head = head_guess(&s)?;
    let terms = terms_guess(&s.terms)?;
    let amount = Paise::read(s.amount)?;
    let payer: Addr = Addr::read(s.payer)?;
    let payee: Addr = Addr::read(s.payee)?;
    let payer = Payer {
        addr: payer,
        amount,
        ac: account_guess(s.payer_ac),
    };
    let payee = Payee {
        addr: payee,
        ac: account_guess(s.payee_ac),
    };
    Some(request(head, terms, payer, payee))
}

// These say nothing but that members are within their grammars, which is a clause of each getter.
fn typed_head(head: &Head)
    ensures { IsTypedHead head.now }
{
    let _ = head.msg_id.bytes();
    let _ = head.org.bytes();
    let _ = head.ts.get();
}

fn typed_account(account: &AccountRef)
    ensures { IsTypedAccount account.now }
{
    let _ = account.bank.bytes();
    let _ = account.num.bytes();
}

fn typed_ac(ac: &Option<AccountRef>)
    ensures { IsTypedAc ac.now }
{
    match ac {
        Some(account) => typed_account(account),
        None => (),
    }
}

fn typed_note(note: &Option<Note>)
    ensures { IsTypedNote note.now }
{
    if let Some(note) = note {
        let _ = note.bytes();
    }
}

fn typed_minutes(minutes: &Option<Minutes>)
    ensures { IsTypedMinutes minutes.now }
{
    if let Some(minutes) = minutes {
        let _ = minutes.get();
    }
}

fn typed_extra(extra: &Option<Extra>)
    ensures { IsTypedExtra extra.now }
{
    if let Some(extra) = extra {
        let _ = extra.mode.bytes();
        let _ = extra.purpose.bytes();
    }
}

fn typed_pay(request: &PayReq)
    ensures { IsTypedPay request.now }
{
    typed_head(&request.head);
    typed_note(&request.note);
    typed_minutes(&request.expire);
    typed_ac(&request.payer_ac);
    typed_ac(&request.payee_ac);
    typed_extra(&request.extra);
    let _ = request.txn.bytes();
    let _ = request.payer.bytes();
    let _ = request.payee.bytes();
    let _ = request.amount.get();
}

// Writes a payment in place of what was written before.
fn write_anew(written: &mut Vec<u8>, request: &PayReq) -> Result<(), NoMemory>
    ensures { OnOk result (written.new.items ≡ compact_text (only (codes "ReqPay") (pay_tree request.now))) }
{
    written.clear();
    push_pay(written, request)?;
    Ok(())
}

/// What a text says, where the guess was right. `written` is room.
pub(crate) fn guessed(
    alloc: Global,
    text: &[u8],
    written: &mut Vec<u8>,
) -> Result<Option<Input>, NoMemory>
    ensures { IfOk result (λ o. IfSome o (λ i. i ≡ Read.input_of text.now)) }
{
    let Some(request) = guess(text) else {
        return Ok(None);
    };
    typed_pay(&request);
    write_anew(written, &request)?;
    if written.as_slice() == text {
        let request = Boxed::new(alloc, request)?;
        Ok(Some(Input::Good(Message::Pay(request))))
    } else {
        Ok(None)
    }
}

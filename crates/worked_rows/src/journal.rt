//! Reads a worked row: its setup, the calls of its entries, and the replies and messages that it has.
//!
//! A message that is heard stands in a row in short: its kind, and what counts of it.
use entry_log::{EntryView, Log};
use std::alloc::Global;
use std::test::Fail;
use upi_base::{
    AccountRef, Addr, Api, AuthResp, BadMessage, Boxed, Call, Chk, ConfResp, Entry, Head, Input,
    Kind, Message, Minutes, Moment, MsgId, MsgWhy, NoMemory, OrgId, Paise, PathText, PayReq,
    PspName, Setup, TxnId, Ver,
};
use upi_text::{SetupText, entry_text, number, word};

/// The setup that lines make.
pub fn setup_of(alloc: Global, text: &[u8]) -> Result<Setup, Fail> {
    let mut setup = SetupText::new(alloc);
    let mut out = Vec::new(alloc);
    for line in text.split(|c| *c == b'\n') {
        if !setup.is_open() {
            setup.line(line, &mut out)?;
        }
    }
    if !setup.is_open() {
        setup.line(b"OPEN", &mut out)?;
    }
    if setup.is_open() {
        return Ok(setup.into_directory().into_setup());
    }
    let missing: Option<Setup> = None;
    Ok(missing.ok_or("no OPEN")?)
}

fn head() -> Result<Head, Fail> {
    Ok(Head {
        msg_id: MsgId::read(b"A1").ok_or("no id")?,
        org: OrgId::read(b"alpha").ok_or("no member")?,
        ts: Moment::of(1_704_067_200).ok_or("no moment")?,
        ver: Ver::One,
    })
}

fn req_msg() -> Result<MsgId, Fail> {
    Ok(MsgId::read(b"M1").ok_or("no id")?)
}

fn txn(line: &[u8], place: usize) -> Result<TxnId, Fail> {
    Ok(TxnId::read(word(line, place)).ok_or("no transaction")?)
}

fn amount(line: &[u8]) -> Result<Paise, Fail> {
    Ok(Paise::read(word(line, 8)).ok_or("no amount")?)
}

fn minutes(text: &[u8]) -> Option<Minutes> {
    Minutes::of(number(text)?.min(100_000) as u32)
}

fn payment(alloc: Global, kind: Kind, line: &[u8]) -> Result<Message, Fail> {
    let head = head()?;
    let request = PayReq {
        head: Head {
            msg_id: head.msg_id,
            org: head.org,
            ts: head.ts,
            ver: Ver::One,
        },
        kind,
        txn: txn(line, 7)?,
        note: None,
        expire: minutes(word(line, 11)),
        payer: Addr::read(word(line, 9)).ok_or("no payer")?,
        payee: Addr::read(word(line, 10)).ok_or("no payee")?,
        amount: amount(line)?,
        payer_ac: AccountRef::read(word(line, 12)),
        payee_ac: AccountRef::read(word(line, 13)),
        extra: None,
    };
    Ok(Message::Pay(Boxed::new(alloc, request)?))
}

fn answer(alloc: Global, line: &[u8]) -> Result<Message, Fail> {
    let answer = AuthResp {
        head: head()?,
        req_msg: req_msg()?,
        txn: txn(line, 7)?,
        yes: word(line, 9) == b"YES".as_slice(),
        amount: amount(line)?,
        payer_ac: AccountRef::read(word(line, 10)),
        payee_ac: AccountRef::read(word(line, 11)),
    };
    Ok(Message::AuthAnswer(Boxed::new(alloc, answer)?))
}

fn confirmed(alloc: Global, line: &[u8]) -> Result<Message, Fail> {
    let confirmed = ConfResp {
        head: head()?,
        req_msg: req_msg()?,
        txn: txn(line, 7)?,
    };
    Ok(Message::Confirmed(Boxed::new(alloc, confirmed)?))
}

// A message that a PSP may not send.
fn foreign(kind: &[u8]) -> Option<Api> {
    match kind {
        b"RESPPAY" => Some(Api::RespPay),
        b"REQAUTH" => Some(Api::ReqAuthDetails),
        b"RESPCHK" => Some(Api::RespChkTxn),
        b"CONFIRM" => Some(Api::ReqTxnConfirmation),
        _ => None,
    }
}

fn message(alloc: Global, line: &[u8]) -> Result<Message, Fail> {
    match word(line, 6) {
        b"PAY" => payment(alloc, Kind::Pay, line),
        b"COLLECT" => payment(alloc, Kind::Collect, line),
        b"AUTH" => answer(alloc, line),
        b"CHECK" => Ok(Message::Check(Chk {
            head: head()?,
            txn: txn(line, 7)?,
        })),
        b"CONFIRMED" => confirmed(alloc, line),
        kind => Ok(Message::Foreign {
            api: foreign(kind).ok_or("no message")?,
            head: head()?,
        }),
    }
}

fn bad(line: &[u8]) -> Result<BadMessage, Fail> {
    Ok(BadMessage {
        path: PathText::read(word(line, 6)).ok_or("no path")?,
        why: MsgWhy::Value,
    })
}

fn heard(alloc: Global, line: &[u8], input: Input) -> Result<Call, Fail> {
    Ok(Call::Hear {
        psp: PspName::read(word(line, 5)).ok_or("no PSP")?,
        input,
    })
}

/// The call of an entry's line.
pub fn call_of(alloc: Global, line: &[u8]) -> Result<Call, Fail> {
    match word(line, 4) {
        b"HEAR" => heard(alloc, line, Input::Good(message(alloc, line)?)),
        b"BAD" => heard(alloc, line, Input::Bad(bad(line)?)),
        b"DELIVER" => Ok(Call::Deliver(number(word(line, 5)).ok_or("no number")?)),
        b"LOSE" => Ok(Call::Lose(number(word(line, 5)).ok_or("no number")?)),
        b"LATE" => Ok(Call::Late(txn(line, 5)?)),
        b"CLOSE" => Ok(Call::Close),
        _ => Err(Fail::new("no call")),
    }
}

/// The moment of a number of seconds.
pub fn moment(text: &[u8]) -> Result<Moment, Fail> {
    let second = number(text).ok_or("no moment")?;
    Ok(Moment::of(second).ok_or("too late")?)
}

/// What stands behind the first `=`.
pub fn behind_call(line: &[u8]) -> &[u8] {
    for (i, c) in line.iter().enumerate() {
        if *c == b'=' {
            return &line[i..];
        }
    }
    &line[line.len()..]
}

/// The replies and the messages of a history.
pub fn written(alloc: Global, history: &[Entry]) -> Result<Vec<u8>, Fail> {
    let mut out = Vec::new(alloc);
    let mut first = 1;
    for entry in history {
        first = push_entry(alloc, entry, first, &mut out)?;
    }
    Ok(out)
}

/// Appends the lines of an entry of a place, whose messages are numbered from `first`. It appends
/// nothing where there are more than a row has.
pub fn push_view(
    alloc: Global,
    entry: &EntryView<'_>,
    place: u64,
    first: u64,
    out: &mut Vec<u8>,
) -> Result<(), NoMemory> {
    if first < 1_000_000 && entry.sent.len() < 20 {
        entry_text(alloc, entry, place, first, out)?;
    }
    Ok(())
}

// Appends the lines of the first entry of a list, whose messages are numbered from `first`.
fn push_first(alloc: Global, log: &Log, first: u64, out: &mut Vec<u8>) -> Result<(), NoMemory> {
    let Some(entry) = log.entry(1) else {
        return Ok(());
    };
    push_view(alloc, &entry, 1, first, out)
}

// Appends the reply and the messages of an entry, and gives the number of the next message.
fn push_entry(alloc: Global, entry: &Entry, first: u64, out: &mut Vec<u8>) -> Result<u64, Fail> {
    let count = entry.sent.items().len() as u64;
    let next = first.checked_add(count).ok_or("too many messages")?;
    let mut log = Log::new(alloc);
    log.append(entry.copy(alloc)?)?;
    let mut text = Vec::new(alloc);
    push_first(alloc, &log, first, &mut text)?;
    out.extend_from_slice(behind_call(&text))?;
    Ok(next)
}

/// The replies and the messages that a journal has.
pub fn wanted(alloc: Global, text: &[u8]) -> Result<Vec<u8>, Fail> {
    let mut out = Vec::new(alloc);
    for line in text.split(|c| *c == b'\n') {
        match word(line, 0) {
            b"E" => push_line(behind_call(line), &mut out)?,
            b"M" => push_line(line, &mut out)?,
            _ => {}
        }
    }
    Ok(out)
}

fn push_line(line: &[u8], out: &mut Vec<u8>) -> Result<(), Fail> {
    out.extend_from_slice(line)?;
    out.push(b'\n')?;
    Ok(())
}

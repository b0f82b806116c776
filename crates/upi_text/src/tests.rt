use super::*;
use entry_log::Log;
use std::alloc::Global;
use std::test::Fail;
use upi_base::{
    AccountRef, Addr, Answer, AuthQuestion, BadMessage, BankCode, Body, Boxed, Call, Code,
    EngineFault, Entry, Head, Input, Kind, Leg, Message, Moment, MsgId, MsgWhy, NoMemory, OrgId,
    Outcome, Paise, Party, PathText, PayReq, PspName, Reply, Sent, SentList, TxnId, Ver, Why,
};

const SETUP: &[u8] =
    b"START 2024-01-01T00:00:00Z\nBANK AAAA\nPSP alpha\nACCOUNT AAAA/1 100\nADDR ann@alpha AAAA/1 YES";

// What a line does before OPEN.
fn take(setup: &mut SetupText, line: &[u8], out: &mut Vec<u8>) -> Result<SetupStep, EngineFault> {
    if setup.is_open() {
        return Err(EngineFault::NoMemory);
    }
    setup.line(line, out)
}

// The state behind lines, and what is written for them.
fn read_all(alloc: Global, lines: &[u8]) -> Result<(SetupText, Vec<u8>), Fail> {
    let mut setup = SetupText::new(alloc);
    let mut out = Vec::new(alloc);
    for line in lines.split(|c| *c == b'\n') {
        take(&mut setup, line, &mut out)?;
    }
    Ok((setup, out))
}

// A line, and why it is refused, at which word.
type Refused = (&'static [u8], u32, Why);

// The first of these lines that isn't refused so, or that writes something.
fn not_refused(setup: &mut SetupText, out: &mut Vec<u8>, rows: &[Refused]) -> Option<usize> {
    let written = out.len();
    for (place, &(line, field, why)) in rows.iter().enumerate() {
        let answer = take(setup, line, out);
        if answer != Err(EngineFault::Bad { field, why }) || out.len() != written {
            return Some(place);
        }
    }
    None
}

// The same, behind lines that are taken.
fn not_refused_behind(
    alloc: Global,
    before: &[u8],
    rows: &[Refused],
) -> Result<Option<usize>, Fail> {
    let (mut setup, mut out) = read_all(alloc, before)?;
    Ok(not_refused(&mut setup, &mut out, rows))
}

// What is written for lines.
fn written(alloc: Global, lines: &[u8]) -> Result<Vec<u8>, Fail> {
    let (_setup, out) = read_all(alloc, lines)?;
    Ok(out)
}

#[test]
fn lines_are_cut_at_single_spaces(rt: HostRuntime) {
    assert_eq!(rt; word_count(b""), 1);
    assert_eq!(rt; word_count(b"DELIVER  1"), 3);
    assert_eq!(rt; word(b" CLOSE", 0), b"".as_slice());
    assert_eq!(rt; word(b" CLOSE", 1), b"CLOSE".as_slice());
    assert_eq!(rt; word(b"CLOSE ", 2), b"".as_slice());
    assert_eq!(rt; from_word(b"SEND alpha {a b}", 2), b"{a b}".as_slice());
    assert_eq!(rt; number(b"007"), Some(7));
    assert_eq!(rt;
        number(b"999999999999999999"),
        Some(999_999_999_999_999_999)
    );
    assert_eq!(rt; number(b"1000000000000000000"), None);
    assert_eq!(rt; number(b""), None);
    assert_eq!(rt; number(b"1a"), None);
}

#[test]
fn the_first_reason_refuses(rt: HostRuntime) -> Result<(), Fail> {
    let rows = [
        (b"BANK \xff".as_slice(), 0, Why::Utf8),
        (b"BANKS AAAA".as_slice(), 1, Why::Word),
        (b" OPEN".as_slice(), 1, Why::Word),
        (b"START 2024-01-01T00:00:00Z".as_slice(), 1, Why::Word),
        (b"BANK".as_slice(), 0, Why::Fields),
        (b"BANK AAAA ".as_slice(), 0, Why::Fields),
        (b"BANK aaaa".as_slice(), 2, Why::Value),
        (b"BANK AAAA".as_slice(), 2, Why::Twice),
        (b"PSP a b".as_slice(), 0, Why::Fields),
        (b"PSP 1a".as_slice(), 2, Why::Value),
        (b"PSP alpha".as_slice(), 2, Why::Twice),
        (b"ACCOUNT AAAA/2".as_slice(), 0, Why::Fields),
        (
            b"ACCOUNT AAAA/2 1 NODEBIT NOCREDIT x".as_slice(),
            0,
            Why::Fields,
        ),
        (b"ACCOUNT AAAA-2 1.".as_slice(), 2, Why::Value),
        (b"ACCOUNT AAAA/2 1. x".as_slice(), 3, Why::Value),
        (b"ACCOUNT AAAA/2 1 x".as_slice(), 4, Why::Value),
        (
            b"ACCOUNT AAAA/2 1 NOCREDIT NODEBIT".as_slice(),
            4,
            Why::Value,
        ),
        (
            b"ACCOUNT AAAA/2 1 NODEBIT NODEBIT".as_slice(),
            5,
            Why::Value,
        ),
        (b"ACCOUNT BBBB/1 1".as_slice(), 2, Why::NoBank),
        (b"ACCOUNT AAAA/1 1".as_slice(), 2, Why::Twice),
        (b"ADDR bob@alpha AAAA/1".as_slice(), 0, Why::Fields),
        (b"ADDR bob AAAA YES".as_slice(), 2, Why::Value),
        (b"ADDR bob@alpha AAAA yes".as_slice(), 3, Why::Value),
        (b"ADDR bob@alpha AAAA/1 yes".as_slice(), 4, Why::Value),
        (b"ADDR ann@alpha BBBB/1 YES".as_slice(), 2, Why::Twice),
        (b"ADDR bob@beta BBBB/1 YES".as_slice(), 2, Why::NoPsp),
        (b"ADDR bob@alpha BBBB/1 YES".as_slice(), 3, Why::NoAccount),
        (b"OPEN now".as_slice(), 0, Why::Fields),
    ];
    assert_eq!(rt; not_refused_behind(rt.alloc(), SETUP, &rows)?, None);
    Ok(())
}

#[test]
fn start_stands_first(rt: HostRuntime) -> Result<(), Fail> {
    let skipped = b"\n#\xff\n# BANK".as_slice();
    assert!(rt; written(rt.alloc(), skipped)?.is_empty());
    let rows = [
        (b"BANK AAAA".as_slice(), 1, Why::Word),
        (b"START".as_slice(), 0, Why::Fields),
        (b"START 2024-02-30T00:00:00Z".as_slice(), 2, Why::Value),
        (b"\xff".as_slice(), 0, Why::Utf8),
    ];
    assert_eq!(rt; not_refused_behind(rt.alloc(), skipped, &rows)?, None);
    Ok(())
}

#[test]
fn a_setup_is_written_in_its_one_form(rt: HostRuntime) -> Result<(), Fail> {
    let lines =
        b"START 2024-01-01T00:00:00.5Z\n\nBANK AAAA\n#\nPSP alpha\nACCOUNT AAAA/1 7.5 NODEBIT\nACCOUNT AAAA/2 007\nACCOUNT AAAA/3 0.1 NOCREDIT\nACCOUNT AAAA/4 1 NODEBIT NOCREDIT\nADDR ann@alpha AAAA/1 YES\nADDR bob@alpha AAAA/1 NO\nADDR eve@alpha AAAA/2 ASK\nOPEN";
    assert_eq!(rt;
        written(rt.alloc(), lines)?.as_slice(),
        b"START 2024-01-01T05:30:00+05:30\nBANK AAAA\nPSP alpha\nACCOUNT AAAA/1 7.50 NODEBIT\nACCOUNT AAAA/2 7.00\nACCOUNT AAAA/3 0.10 NOCREDIT\nACCOUNT AAAA/4 1.00 NODEBIT NOCREDIT\nADDR ann@alpha AAAA/1 YES\nADDR bob@alpha AAAA/1 NO\nADDR eve@alpha AAAA/2 ASK\nOPEN\n".as_slice()
    );
    assert!(rt; kept(rt.alloc(), lines)? == Some((9, 1_704_067_200)));
    Ok(())
}

// How many lines a setup has that is read to its end, and when it starts.
fn kept(alloc: Global, lines: &[u8]) -> Result<Option<(usize, u64)>, Fail> {
    let (text, _out) = read_all(alloc, lines)?;
    if !text.is_open() {
        return Ok(None);
    }
    let setup = text.into_directory().into_setup();
    Ok(Some((setup.lines.items().len(), setup.start.get())))
}

// Whether so many accounts are taken, one line for each.
fn takes_accounts(alloc: Global, setup: &mut SetupText, count: u32) -> Result<bool, Fail> {
    let mut out = Vec::new(alloc);
    for number in 0..count {
        let line = format!(in alloc; "ACCOUNT AAAA/n{number} 1")?;
        out.clear();
        if take(setup, line.as_bytes(), &mut out)? != SetupStep::More {
            return Ok(false);
        }
    }
    Ok(true)
}

// Whether so many accounts are taken, and these lines then refused so.
fn fills(alloc: Global, count: u32, rows: &[Refused]) -> Result<bool, Fail> {
    let (mut setup, mut out) = read_all(alloc, b"START 2024-01-01T00:00:00Z\nBANK AAAA")?;
    let taken = takes_accounts(alloc, &mut setup, count)?;
    Ok(taken && not_refused(&mut setup, &mut out, rows) == None)
}

#[test]
fn so_many_accounts_are_taken(rt: HostRuntime) -> Result<(), Fail> {
    let rows = [
        (b"ACCOUNT AAAA/more 1".as_slice(), 1, Why::Limit),
        (b"ACCOUNT AAAA/n0 1".as_slice(), 2, Why::Twice),
    ];
    assert!(rt; fills(rt.alloc(), 65_536, &rows)?);
    Ok(())
}

fn txn() -> Result<TxnId, Fail> {
    Ok(TxnId::read(b"T1").ok_or(NoMemory)?)
}

fn psp() -> Result<PspName, Fail> {
    Ok(PspName::read(b"alpha").ok_or(NoMemory)?)
}

fn sum() -> Result<Paise, Fail> {
    Ok(Paise::of(3000).ok_or(NoMemory)?)
}

// Appends the lines of the first entry of a list, as if it stood at this place and its messages were
// numbered from `first`.
fn first_entry(
    alloc: Global,
    log: &Log,
    place: u64,
    first: u32,
    out: &mut Vec<u8>,
) -> Result<(), NoMemory> {
    let Some(entry) = log.entry(1) else {
        return Ok(());
    };
    if entry.sent.len() < 20 {
        entry_text(alloc, &entry, place, u64::from(first), out)?;
    }
    Ok(())
}

// Appends the lines of an entry, as if it stood at this place and its messages were numbered from
// `first`.
fn push_lines(
    alloc: Global,
    entry: Entry,
    place: u64,
    first: u32,
    out: &mut Vec<u8>,
) -> Result<(), NoMemory> {
    let mut log = Log::new(alloc);
    log.append(entry)?;
    first_entry(alloc, &log, place, first, out)
}

// The E line of an entry at place 12 that sends nothing.
fn line_of(alloc: Global, call: Call, reply: Reply) -> Result<Vec<u8>, Fail> {
    let entry = Entry {
        call,
        at: Moment::of(1_704_067_200).ok_or(NoMemory)?,
        caller: 3,
        reply,
        sent: SentList::new(alloc),
    };
    let mut out = Vec::new(alloc);
    push_lines(alloc, entry, 12, 1, &mut out)?;
    Ok(out)
}

#[test]
fn replies(rt: HostRuntime) -> Result<(), Fail> {
    let rows = [
        (Reply::Ack(None), b"OK".as_slice()),
        (Reply::Ack(Some(Code::NotYours)), b"NO NOTYOURS".as_slice()),
        (Reply::Status(None), b"STATUS PENDING".as_slice()),
        (
            Reply::Status(Some(Outcome::Success)),
            b"STATUS SUCCESS".as_slice(),
        ),
        (
            Reply::Status(Some(Outcome::Deemed)),
            b"STATUS DEEMED".as_slice(),
        ),
        (
            Reply::Status(Some(Outcome::Failure(Code::DebitLate))),
            b"STATUS FAILURE DEBITLATE".as_slice(),
        ),
        (Reply::Leg(Answer::Posted), b"POSTED".as_slice()),
        (
            Reply::Leg(Answer::Declined(Code::Funds)),
            b"DECLINED FUNDS".as_slice(),
        ),
        (Reply::Told, b"TOLD".as_slice()),
        (Reply::Lost, b"LOST".as_slice()),
        (Reply::Acted, b"DONE".as_slice()),
        (Reply::NotDue, b"NOTDUE".as_slice()),
        (Reply::Closed, b"CLOSED".as_slice()),
    ];
    for (reply, text) in rows {
        let line = line_of(rt.alloc(), Call::Close, reply)?;
        let mut want = Vec::from_slice(rt.alloc(), b"E 12 3 1704067200 CLOSE = ")?;
        want.extend_from_slice(text)?;
        want.push(b'\n')?;
        assert_eq!(rt; line.as_slice(), want.as_slice());
    }
    Ok(())
}

#[test]
fn calls(rt: HostRuntime) -> Result<(), Fail> {
    let bad = BadMessage {
        path: PathText::read(b"ReqPay.Payees.Payee[0].addr").ok_or(NoMemory)?,
        why: MsgWhy::Value,
    };
    let hear = Call::Hear {
        psp: psp()?,
        input: Input::Bad(bad),
    };
    let line = line_of(rt.alloc(), hear, Reply::Ack(Some(Code::Format)))?;
    assert_eq!(rt;
        line.as_slice(),
        b"E 12 3 1704067200 BAD alpha ReqPay.Payees.Payee[0].addr VALUE = NO FORMAT\n".as_slice()
    );
    let line = line_of(rt.alloc(), Call::Deliver(7), Reply::Told)?;
    assert_eq!(rt;
        line.as_slice(),
        b"E 12 3 1704067200 DELIVER 7 = TOLD\n".as_slice()
    );
    let line = line_of(rt.alloc(), Call::Lose(10), Reply::Lost)?;
    assert_eq!(rt;
        line.as_slice(),
        b"E 12 3 1704067200 LOSE 10 = LOST\n".as_slice()
    );
    let line = line_of(rt.alloc(), Call::Late(txn()?), Reply::Acted)?;
    assert_eq!(rt;
        line.as_slice(),
        b"E 12 3 1704067200 LATE T1 = DONE\n".as_slice()
    );
    Ok(())
}

#[test]
fn a_message_is_heard(rt: HostRuntime) -> Result<(), Fail> {
    let request = PayReq {
        head: Head {
            msg_id: MsgId::read(b"A1").ok_or(NoMemory)?,
            org: OrgId::read(b"alpha").ok_or(NoMemory)?,
            ts: Moment::of(1_704_067_200).ok_or(NoMemory)?,
            ver: Ver::One,
        },
        kind: Kind::Pay,
        txn: txn()?,
        note: None,
        expire: None,
        payer: Addr::read(b"ann@alpha").ok_or(NoMemory)?,
        payee: Addr::read(b"bob@beta").ok_or(NoMemory)?,
        amount: sum()?,
        payer_ac: None,
        payee_ac: None,
        extra: None,
    };
    let hear = Call::Hear {
        psp: psp()?,
        input: Input::Good(Message::Pay(Boxed::new(rt.alloc(), request)?)),
    };
    let line = line_of(rt.alloc(), hear, Reply::Ack(None))?;
    assert_eq!(rt;
        line.as_slice(),
        b"E 12 3 1704067200 HEAR alpha {\"ReqPay\":{\"Head\":{\"msgId\":\"A1\",\"orgId\":\"alpha\",\"ts\":\"2024-01-01T05:30:00+05:30\",\"ver\":\"1.0\"},\"Payees\":{\"Payee\":[{\"addr\":\"bob@beta\"}]},\"Payer\":{\"Amount\":{\"curr\":\"INR\",\"value\":\"30.00\"},\"addr\":\"ann@alpha\"},\"Txn\":{\"id\":\"T1\",\"type\":\"PAY\"}}} = OK\n".as_slice()
    );
    Ok(())
}

// The lines of an entry at place 1 that sends these messages, of which the first is message 9.
fn sending(alloc: Global, sent: Vec<Sent>) -> Result<Vec<u8>, Fail> {
    let entry = Entry {
        call: Call::Close,
        at: Moment::of(0).ok_or(NoMemory)?,
        caller: 0,
        reply: Reply::Closed,
        sent: SentList::of(sent),
    };
    let mut out = Vec::from_slice(alloc, b"#\n")?;
    push_lines(alloc, entry, 1, 9, &mut out)?;
    Ok(out)
}

fn to_bank(body: Body) -> Result<Sent, Fail> {
    Ok(Sent {
        from: Party::Switch,
        to: Party::Bank(BankCode::read(b"AAAA").ok_or(NoMemory)?),
        body,
        ver: Ver::One,
    })
}

fn from_psp(body: Body) -> Result<Sent, Fail> {
    Ok(Sent {
        from: Party::Psp(psp()?),
        to: Party::Switch,
        body,
        ver: Ver::One,
    })
}

fn order(alloc: Global, leg: Leg) -> Result<Body, Fail> {
    let ac = AccountRef::read(b"AAAA/1").ok_or(NoMemory)?;
    let addr = Addr::read(b"ann@alpha").ok_or(NoMemory)?;
    Ok(Body::Order {
        txn: txn()?,
        leg,
        amount: sum()?,
        ac: Boxed::new(alloc, ac)?,
        addr: Boxed::new(alloc, addr)?,
        extra: None,
    })
}

#[test]
fn messages_to_banks(rt: HostRuntime) -> Result<(), Fail> {
    let mut sent = Vec::new(rt.alloc());
    sent.push(to_bank(order(rt.alloc(), Leg::Debit)?)?)?;
    sent.push(to_bank(order(rt.alloc(), Leg::Credit)?)?)?;
    sent.push(to_bank(order(rt.alloc(), Leg::Reversal)?)?)?;
    sent.push(to_bank(Body::LegAnswer {
        txn: txn()?,
        leg: Leg::Debit,
        answer: Answer::Posted,
    })?)?;
    sent.push(to_bank(Body::LegAnswer {
        txn: txn()?,
        leg: Leg::Credit,
        answer: Answer::Declined(Code::NoCredit),
    })?)?;
    let out = sending(rt.alloc(), sent)?;
    assert_eq!(rt;
        out.as_slice(),
        b"#\nE 1 0 0 CLOSE = CLOSED\nM 9 SWITCH AAAA DEBIT T1 30.00 AAAA/1\nM 10 SWITCH AAAA CREDIT T1 30.00 AAAA/1\nM 11 SWITCH AAAA REVERSAL T1 30.00 AAAA/1\nM 12 SWITCH AAAA ANSWER T1 DEBIT POSTED\nM 13 SWITCH AAAA ANSWER T1 CREDIT DECLINED NOCREDIT\n".as_slice()
    );
    Ok(())
}

#[test]
fn messages_to_psps(rt: HostRuntime) -> Result<(), Fail> {
    let mut sent = Vec::new(rt.alloc());
    let question = AuthQuestion {
        txn: txn()?,
        kind: Kind::Pay,
        payer: Addr::read(b"ann@alpha").ok_or(NoMemory)?,
        payee: Addr::read(b"bob@beta").ok_or(NoMemory)?,
        amount: sum()?,
        note: None,
        extra: None,
    };
    sent.push(from_psp(Body::ReqAuth(Boxed::new(rt.alloc(), question)?))?)?;
    sent.push(from_psp(Body::RespAuth {
        txn: txn()?,
        amount: sum()?,
        yes: false,
    })?)?;
    sent.push(from_psp(Body::Result {
        txn: txn()?,
        kind: Kind::Collect,
        outcome: Outcome::Failure(Code::Expired),
        req_msg: MsgId::read(b"A1").ok_or(NoMemory)?,
    })?)?;
    sent.push(from_psp(Body::Confirm {
        txn: txn()?,
        kind: Kind::Pay,
        outcome: Outcome::Deemed,
    })?)?;
    sent.push(from_psp(Body::Confirmed { txn: txn()? })?)?;
    let out = sending(rt.alloc(), sent)?;
    assert_eq!(rt;
        out.as_slice(),
        b"#\nE 1 0 0 CLOSE = CLOSED\nM 9 alpha SWITCH REQAUTH T1 30.00\nM 10 alpha SWITCH RESPAUTH T1 30.00 NO\nM 11 alpha SWITCH RESPPAY T1 FAILURE EXPIRED\nM 12 alpha SWITCH CONFIRM T1 DEEMED\nM 13 alpha SWITCH CONFIRMED T1\n".as_slice()
    );
    Ok(())
}

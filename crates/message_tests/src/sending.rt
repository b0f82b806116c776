//! Messages that are sent, and replies.
use crate::texts::{PLAIN, SENT, STATUS};
use crate::walk::{exchanged, heard, json};
use std::alloc::Global;
use std::test::Fail;
use upi_base::{
    AcNum, AccountRef, Addr, Answer, Api, AuthQuestion, BankCode, Body, Boxed, Call, Chk, Code,
    Done, Extra, Head, Input, Kind, Leg, Message, Moment, MsgId, Note, OrgId, Outcome, Paise,
    Party, PspName, Reply, Sent, TwoDigits, TxnId, Ver,
};
use upi_msg::{reply_text, sent_text};

fn extra() -> Option<Extra> {
    Some(Extra {
        mode: TwoDigits::read(b"01")?,
        purpose: TwoDigits::read(b"05")?,
    })
}

fn question(alloc: Global, extra: Option<Extra>, note: Option<Note>) -> Option<Body> {
    let asked = AuthQuestion {
        txn: TxnId::read(b"T1")?,
        kind: Kind::Pay,
        payer: Addr::read(b"ann@alpha")?,
        payee: Addr::read(b"bob@beta")?,
        amount: Paise::of(3_000)?,
        note,
        extra,
    };
    Some(Body::ReqAuth(Boxed::new(alloc, asked).ok()?))
}

fn order(alloc: Global, leg: Leg, extra: Option<Extra>) -> Option<Body> {
    let ac = AccountRef {
        bank: BankCode::read(b"AAAA")?,
        num: AcNum::read(b"1")?,
    };
    Some(Body::Order {
        txn: TxnId::read(b"T1")?,
        leg,
        amount: Paise::of(3_000)?,
        ac: Boxed::new(alloc, ac).ok()?,
        addr: Boxed::new(alloc, Addr::read(b"ann@alpha")?).ok()?,
        extra,
    })
}

fn answered(leg: Leg, answer: Answer) -> Option<Body> {
    Some(Body::LegAnswer {
        txn: TxnId::read(b"T1")?,
        leg,
        answer,
    })
}

fn confirm(outcome: Outcome) -> Option<Body> {
    Some(Body::Confirm {
        txn: TxnId::read(b"T1")?,
        kind: Kind::Pay,
        outcome,
    })
}

// What each line of the table says.
fn body(alloc: Global, line: usize) -> Option<Body> {
    match line {
        0 => question(alloc, None, None),
        1 => question(alloc, extra(), None),
        2 => question(alloc, None, Note::read(b"a \"b\"")),
        3 => order(alloc, Leg::Debit, None),
        4 => order(alloc, Leg::Reversal, extra()),
        5 => order(alloc, Leg::Credit, None),
        6 => Some(Body::RespAuth {
            txn: TxnId::read(b"T1")?,
            amount: Paise::of(3_000)?,
            yes: false,
        }),
        7 => answered(Leg::Debit, Answer::Posted),
        8 => answered(Leg::Credit, Answer::Declined(Code::NoCredit)),
        9 => Some(Body::Confirmed {
            txn: TxnId::read(b"T1")?,
        }),
        10 => Some(Body::Result {
            txn: TxnId::read(b"T1")?,
            kind: Kind::Collect,
            outcome: Outcome::Failure(Code::Funds),
            req_msg: MsgId::read(b"B1")?,
        }),
        11 => confirm(Outcome::Deemed),
        12 => confirm(Outcome::Failure(Code::Declined)),
        _ => None,
    }
}

// Who sends it: the switch, but for the answers of a bank and of a PSP.
fn sender(line: usize) -> Option<Party> {
    match line {
        7 | 8 => Some(Party::Bank(BankCode::read(b"AAAA")?)),
        6 | 9 => Some(Party::Psp(PspName::read(b"beta")?)),
        _ => Some(Party::Switch),
    }
}

fn version(line: usize) -> Ver {
    match line {
        1 | 4 | 11 => Ver::Two,
        _ => Ver::One,
    }
}

// The number of each message.
const NUMBERS: [u64; 13] = [1, 1, 7, 3, 3, 5, 2, 4, 4, 9, 5, 6, 6];

// The message that the call delivers that sends it; 0: the call delivers none.
const DELIVERED: [u64; 13] = [0, 0, 0, 2, 2, 4, 1, 3, 3, 8, 4, 4, 4];

fn cause(line: usize) -> Option<Call> {
    match DELIVERED.get(line)? {
        0 => Some(Call::Close),
        n => Some(Call::Deliver(*n)),
    }
}

fn message(alloc: Global, line: usize) -> Option<Sent> {
    Some(Sent {
        from: sender(line)?,
        to: Party::Switch,
        body: body(alloc, line)?,
        ver: version(line),
    })
}

// Whether the message of a line is written so, behind what stands there.
fn is_sent(alloc: Global, line: usize, expected: &str) -> Result<bool, Fail> {
    let at = Moment::of(1_704_067_200).ok_or("a moment")?;
    let n = NUMBERS.get(line).ok_or("a number")?;
    let cause = cause(line).ok_or("a call")?;
    let sent = message(alloc, line).ok_or("a message")?;
    let mut out = Vec::new(alloc);
    out.push(b'#')?;
    sent_text(alloc, &sent, *n, &cause, at, &mut out)
        .ok()
        .ok_or("memory")?;
    Ok(out.as_slice().strip_prefix(b"#") == Some(json(alloc, expected)?.as_slice()))
}

#[test]
fn sent_messages(rt: HostRuntime) -> Result<(), Fail> {
    let alloc = rt.alloc();
    for (line, expected) in SENT.lines().enumerate() {
        assert!(rt; is_sent(alloc, line, expected)?, "{expected}");
    }
    assert_eq!(rt; SENT.lines().count(), 13);
    Ok(())
}

fn head(name: &[u8], ver: Ver) -> Option<Head> {
    Some(Head {
        msg_id: MsgId::read(name)?,
        org: OrgId::read(b"alpha")?,
        ts: Moment::of(1_704_067_200)?,
        ver,
    })
}

fn check() -> Option<Input> {
    Some(Input::Good(Message::Check(Chk {
        head: head(b"A3", Ver::Two)?,
        txn: TxnId::read(b"T1")?,
    })))
}

fn foreign() -> Option<Input> {
    Some(Input::Good(Message::Foreign {
        api: Api::RespChkTxn,
        head: head(b"A9", Ver::One)?,
    }))
}

fn is_reply(alloc: Global, input: &Input, reply: Reply, expected: &str) -> Result<bool, Fail> {
    let at = Moment::of(1_704_067_200).ok_or("a moment")?;
    let done = Done { reply, place: 12 };
    let mut out = Vec::new(alloc);
    reply_text(alloc, input, &done, at, &mut out)
        .ok()
        .ok_or("memory")?;
    Ok(out == json(alloc, expected)?)
}

#[test]
fn acknowledgements(rt: HostRuntime) -> Result<(), Fail> {
    let alloc = rt.alloc();
    let pay = heard(alloc, &json(alloc, PLAIN)?)?;
    for (reply, expected) in [
        (Reply::Ack(None), "{'Ack':{'api':'ReqPay','reqMsgId':'A1'}}"),
        (
            Reply::Ack(Some(Code::Dup)),
            "{'Ack':{'api':'ReqPay','err':'DUP','reqMsgId':'A1'}}",
        ),
        (Reply::Status(None), ""),
        (Reply::Told, ""),
    ] {
        assert!(rt; is_reply(alloc, &pay, reply, expected)?, "{expected}");
    }
    assert!(rt;
        is_reply(
            alloc,
            &heard(alloc, b"{}")?,
            Reply::Ack(Some(Code::Format)),
            "{'Ack':{'api':'','err':'FORMAT','reqMsgId':''}}"
        )?
    );
    assert!(rt;
        is_reply(
            alloc,
            &foreign().ok_or("a message")?,
            Reply::Ack(Some(Code::NotYours)),
            "{'Ack':{'api':'RespChkTxn','err':'NOTYOURS','reqMsgId':'A9'}}"
        )?
    );
    Ok(())
}

// Whether the status of an outcome is written with these members in its `Resp`.
fn is_status(alloc: Global, outcome: Option<Outcome>, resp: &str) -> Result<bool, Fail> {
    let at = Moment::of(1_704_067_200).ok_or("a moment")?;
    let done = Done {
        reply: Reply::Status(outcome),
        place: 12,
    };
    let mut out = Vec::new(alloc);
    reply_text(alloc, &check().ok_or("a check")?, &done, at, &mut out)
        .ok()
        .ok_or("memory")?;
    Ok(out == exchanged(alloc, STATUS, "RESP", resp)?)
}

#[test]
fn statuses(rt: HostRuntime) -> Result<(), Fail> {
    let alloc = rt.alloc();
    for (outcome, resp) in [
        (None, "'reqMsgId':'A3','result':'PENDING'"),
        (Some(Outcome::Success), "'reqMsgId':'A3','result':'SUCCESS'"),
        (Some(Outcome::Deemed), "'reqMsgId':'A3','result':'DEEMED'"),
        (
            Some(Outcome::Failure(Code::DebitLate)),
            "'errCode':'DEBITLATE','reqMsgId':'A3','result':'FAILURE'",
        ),
    ] {
        assert!(rt; is_status(alloc, outcome, resp)?, "{resp}");
    }
    Ok(())
}

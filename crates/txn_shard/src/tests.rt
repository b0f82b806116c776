//! Transactions played in a shard, from the Hear to the outcome.
use crate::{Step, TxnShard};
use std::alloc::Global;
use std::hash::RandomState;
use std::test::Fail;
use upi_base::{
    AccountRef, Addr, Answer, BankCode, Body, Boxed, Chk, Code, Head, Input, Kind, Leg, Message,
    Moment, MsgId, OrgId, Outcome, Paise, Party, PayReq, Policy, PspName, Reply, Sent, SetupLine,
    ShardCall, TxnId, Ver,
};
use vpa_directory::Directory;

// What is done at a moment, and what it must come to: the reply, and how many messages are sent.
// `PAY` and `COLLECT` ask for the payment of ann at alpha to bob at beta, of an amount in paise;
// `CHECK` is ann's question for the status; `LAST` is the delivery of the message that was sent last,
// `LOSE` its loss; a bank says that it posted a leg.
const PAY: &str = "0 PAY 3000 OK 1
0 PAY 3000 OK 0
0 PAY 3001 DUP 0
1 LATE - NOTDUE 0
1 CHECK - PENDING 0
2 LAST - TOLD 1
3 LAST - OK 1
4 DEBIT - OK 1
4 DEBIT - OK 0
5 CREDIT - OK 2
5 CHECK - SUCCESS 0
6 LAST - TOLD 1
34 LATE - NOTDUE 0
35 LATE - DONE 1
36 LAST - TOLD 1
37 LAST - OK 0
38 LOSE - LOST 0
65 LATE - NOTDUE 0";

// A COLLECT that is answered too late.
const COLLECT: &str = "0 COLLECT 3000 OK 1
1799 LATE - NOTDUE 0
1800 LATE - DONE 2
1801 CHECK - EXPIRED 0
1830 LATE - DONE 1
1860 LATE - DONE 1
1890 LATE - DONE 1
1920 LATE - NOTDUE 0";

// A PAY whose debit isn't answered in time: its reversal is awaited.
const REVERSED: &str = "0 PAY 3000 OK 1
0 LAST - TOLD 1
0 LAST - OK 1
30 LATE - DONE 1
60 LATE - DONE 1
61 DEBIT - DEBITLATE 0";

fn word_at(line: &str, place: usize) -> &str {
    line.split(" ").nth(place).unwrap_or("")
}

fn number_at(line: &str, place: usize) -> Option<u64> {
    word_at(line, place).parse().ok()
}

fn account(name: &[u8]) -> Option<SetupLine> {
    Some(SetupLine::Account {
        ac: AccountRef::read(name)?,
        opening: Paise::of(10_000)?,
        no_debit: false,
        no_credit: false,
    })
}

fn address(name: &[u8], ac: &[u8]) -> Option<SetupLine> {
    Some(SetupLine::Address {
        addr: Addr::read(name)?,
        ac: AccountRef::read(ac)?,
        policy: Policy::Yes,
    })
}

// The lines of a setup: ann at alpha, and bob at beta.
fn line(place: usize) -> Option<SetupLine> {
    match place {
        0 => Some(SetupLine::Bank(BankCode::read(b"AAAA")?)),
        1 => Some(SetupLine::Psp(PspName::read(b"alpha")?)),
        2 => Some(SetupLine::Psp(PspName::read(b"beta")?)),
        3 => account(b"AAAA/1"),
        4 => account(b"AAAA/2"),
        5 => address(b"ann@alpha", b"AAAA/1"),
        _ => address(b"bob@beta", b"AAAA/2"),
    }
}

fn directory(alloc: Global) -> Option<Directory> {
    let mut directory = Directory::new(alloc, Moment::of(0)?);
    for place in 0..7 {
        directory.add(line(place)?).ok()?;
    }
    Some(directory)
}

fn head() -> Option<Head> {
    Some(Head {
        msg_id: MsgId::read(b"M1")?,
        org: OrgId::read(b"ORG")?,
        ts: Moment::of(0)?,
        ver: Ver::One,
    })
}

fn payment(alloc: Global, kind: Kind, amount: u64) -> Option<Input> {
    let asked = PayReq {
        head: Head {
            ver: Ver::One,
            ..head()?
        },
        kind,
        txn: TxnId::read(b"T1")?,
        note: None,
        expire: None,
        payer: Addr::read(b"ann@alpha")?,
        payee: Addr::read(b"bob@beta")?,
        amount: Paise::of(amount)?,
        payer_ac: None,
        payee_ac: None,
        extra: None,
    };
    Some(Input::Good(Message::Pay(Boxed::new(alloc, asked).ok()?)))
}

fn question() -> Option<Input> {
    Some(Input::Good(Message::Check(Chk {
        head: head()?,
        txn: TxnId::read(b"T1")?,
    })))
}

// A bank's answer to a leg.
fn posted(leg: Leg) -> Option<Sent> {
    Some(Sent {
        from: Party::Bank(BankCode::read(b"AAAA")?),
        to: Party::Switch,
        body: Body::LegAnswer {
            txn: TxnId::read(b"T1")?,
            leg,
            answer: Answer::Posted,
        },
        ver: Ver::One,
    })
}

fn code_told(code: Option<Code>) -> &'static str {
    match code {
        None => "OK",
        Some(Code::Dup) => "DUP",
        Some(Code::DebitLate) => "DEBITLATE",
        Some(_) => "another code",
    }
}

fn status_told(outcome: Option<Outcome>) -> &'static str {
    match outcome {
        None => "PENDING",
        Some(Outcome::Success) => "SUCCESS",
        Some(Outcome::Failure(Code::Expired)) => "EXPIRED",
        Some(_) => "another outcome",
    }
}

fn told(reply: &Reply) -> &'static str {
    match reply {
        Reply::Ack(code) => code_told(*code),
        Reply::Status(outcome) => status_told(*outcome),
        Reply::Told => "TOLD",
        Reply::Acted => "DONE",
        Reply::NotDue => "NOTDUE",
        Reply::Lost => "LOST",
        _ => "another reply",
    }
}

fn last_sent(alloc: Global, last: &Option<Sent>) -> Option<Sent> {
    match last {
        None => None,
        Some(sent) => sent.copy(alloc).ok(),
    }
}

fn hear(psp: &[u8], input: Option<Input>) -> Option<ShardCall> {
    Some(ShardCall::Hear {
        psp: PspName::read(psp)?,
        input: input?,
    })
}

fn call(alloc: Global, last: &Option<Sent>, line: &str) -> Option<ShardCall> {
    match word_at(line, 1) {
        "PAY" => hear(b"alpha", payment(alloc, Kind::Pay, number_at(line, 2)?)),
        "COLLECT" => hear(b"beta", payment(alloc, Kind::Collect, number_at(line, 2)?)),
        "CHECK" => hear(b"alpha", question()),
        "LATE" => Some(ShardCall::Late(TxnId::read(b"T1")?)),
        "DEBIT" => Some(ShardCall::Deliver(posted(Leg::Debit)?)),
        "CREDIT" => Some(ShardCall::Deliver(posted(Leg::Credit)?)),
        "LOSE" => Some(ShardCall::Lose(last_sent(alloc, last)?)),
        _ => Some(ShardCall::Deliver(last_sent(alloc, last)?)),
    }
}

// Whether a step is what a line says.
fn is_right(step: &Step, line: &str) -> bool {
    let count = step.sent().len() as u64;
    told(step.reply()) == word_at(line, 3) && Some(count) == number_at(line, 4)
}

// Whether a line comes to what it must; the message that it sends last is kept.
fn is_played(
    alloc: Global,
    shard: &mut TxnShard,
    dir: &Directory,
    last: &mut Option<Sent>,
    line: &str,
) -> Option<bool> {
    let call = call(alloc, last, line)?;
    let now = Moment::of(number_at(line, 0)?)?;
    let Ok(mut step) = shard.plan(dir, &call, now) else {
        return None;
    };
    let right = is_right(&step, line);
    let mut sent = step.take_sent().into_items();
    if let Some(message) = sent.pop() {
        *last = Some(message);
    }
    shard.commit(step);
    Some(right)
}

fn empty(rt: &HostRuntime) -> Result<TxnShard, Fail> {
    Ok(TxnShard::new(rt.alloc(), RandomState::new(rt)?, RandomState::new(rt)?))
}

// The first line that doesn't come to what it must.
fn first_wrong(
    alloc: Global,
    shard: &mut TxnShard,
    script: &'static str,
) -> Result<Option<&'static str>, Fail> {
    let dir = directory(alloc).ok_or("a setup")?;
    let mut last = None;
    for line in script.lines() {
        if is_played(alloc, shard, &dir, &mut last, line) != Some(true) {
            return Ok(Some(line));
        }
    }
    Ok(None)
}

#[test]
fn a_payment_is_played(rt: HostRuntime) -> Result<(), Fail> {
    let mut shard = empty(&rt)?;
    assert_eq!(rt; first_wrong(rt.alloc(), &mut shard, PAY)?, None);
    Ok(())
}

#[test]
fn a_collect_comes_too_late(rt: HostRuntime) -> Result<(), Fail> {
    let mut shard = empty(&rt)?;
    assert_eq!(rt; first_wrong(rt.alloc(), &mut shard, COLLECT)?, None);
    Ok(())
}

// What a Close finds: how many reversals arrive, whether one is due, and the outcome then.
fn closing(alloc: Global, shard: &TxnShard) -> Result<(usize, usize, Option<Outcome>), Fail> {
    let dir = directory(alloc).ok_or("a setup")?;
    let txn = TxnId::read(b"T1").ok_or("a name")?;
    let returned = shard.at_close(&dir)?.len();
    let due = shard.due(90)?.len();
    Ok((returned, due, shard.closed_outcome(&txn)))
}

#[test]
fn a_close_returns_what_is_awaited(rt: HostRuntime) -> Result<(), Fail> {
    let mut shard = empty(&rt)?;
    assert_eq!(rt; first_wrong(rt.alloc(), &mut shard, REVERSED)?, None);
    let found = closing(rt.alloc(), &shard)?;
    assert!(rt; found == (1, 1, Some(Outcome::Failure(Code::DebitLate))));
    Ok(())
}

//! A collect that is approved too late.
use crate::TxnShards;
use std::alloc::Global;
use std::hash::RandomState;
use std::test::Fail;
use upi_base::{
    AccountRef, Addr, AuthResp, BankCode, Boxed, Code, Head, Input, Kind, Message, Minutes, Moment,
    MsgId, OrgId, Outcome, Paise, PayReq, Policy, PspName, Reply, Setup, SetupLine, SetupLines,
    TxnId, Ver,
};
use vpa_directory::Directory;

const START: u64 = 1_704_067_200;

fn account(name: &[u8], opening: u64) -> Option<SetupLine> {
    Some(SetupLine::Account {
        ac: AccountRef::read(name)?,
        opening: Paise::of(opening)?,
        no_debit: false,
        no_credit: false,
    })
}

fn address(name: &[u8], ac: &[u8], policy: Policy) -> Option<SetupLine> {
    Some(SetupLine::Address {
        addr: Addr::read(name)?,
        ac: AccountRef::read(ac)?,
        policy,
    })
}

// The lines of a setup in which somebody else answers for Ann.
fn line(place: usize) -> Option<SetupLine> {
    match place {
        0 => Some(SetupLine::Bank(BankCode::read(b"AAAA")?)),
        1 => Some(SetupLine::Bank(BankCode::read(b"BBBB")?)),
        2 => Some(SetupLine::Psp(PspName::read(b"alpha")?)),
        3 => Some(SetupLine::Psp(PspName::read(b"beta")?)),
        4 => account(b"AAAA/1", 10_000),
        5 => account(b"BBBB/1", 500),
        6 => address(b"ann@alpha", b"AAAA/1", Policy::Ask),
        _ => address(b"bob@beta", b"BBBB/1", Policy::Yes),
    }
}

fn directory(alloc: Global) -> Result<Directory, Fail> {
    let mut lines = SetupLines::new(alloc);
    for place in 0..8 {
        lines.push(line(place).ok_or("a line")?)?;
    }
    let start = Moment::of(START).ok_or("a moment")?;
    let dir = Directory::build(alloc, Setup { start, lines }).ok();
    Ok(dir.ok_or("a setup")?)
}

fn head() -> Option<Head> {
    Some(Head {
        msg_id: MsgId::read(b"A1")?,
        org: OrgId::read(b"alpha")?,
        ts: Moment::of(START)?,
        ver: Ver::One,
    })
}

// Bob asks for 30.00 from Ann, who has a minute.
fn collect(alloc: Global) -> Option<Message> {
    let asked = PayReq {
        head: Head {
            ver: Ver::One,
            ..head()?
        },
        kind: Kind::Collect,
        txn: TxnId::read(b"C1")?,
        note: None,
        expire: Minutes::of(1),
        payer: Addr::read(b"ann@alpha")?,
        payee: Addr::read(b"bob@beta")?,
        amount: Paise::of(3_000)?,
        payer_ac: None,
        payee_ac: None,
        extra: None,
    };
    Some(Message::Pay(Boxed::new(alloc, asked).ok()?))
}

// Ann approves.
fn approval(alloc: Global) -> Option<Message> {
    let word = AuthResp {
        head: head()?,
        req_msg: MsgId::read(b"M1")?,
        txn: TxnId::read(b"C1")?,
        yes: true,
        amount: Paise::of(3_000)?,
        payer_ac: None,
        payee_ac: None,
    };
    Some(Message::AuthAnswer(Boxed::new(alloc, word).ok()?))
}

// Whether what a PSP says gets this reply, with so many messages.
fn is_told(
    txns: &mut TxnShards,
    dir: &Directory,
    psp: &[u8],
    message: Message,
    at: u64,
    wanted: (Reply, usize),
) -> Option<bool> {
    let input = Input::Good(message);
    let step = txns
        .plan_heard(dir, &PspName::read(psp)?, &input, Moment::of(at)?)
        .ok()?;
    let told = *step.reply() == wanted.0 && step.sent().len() == wanted.1;
    txns.commit(step);
    Some(told)
}

// Whether a look at the transaction gets this reply, with so many messages.
fn is_looked_at(
    txns: &mut TxnShards,
    dir: &Directory,
    at: u64,
    wanted: (Reply, usize),
) -> Option<bool> {
    let txn = TxnId::read(b"C1")?;
    let step = txns.plan_late(dir, &txn, Moment::of(at)?).ok()?;
    let told = *step.reply() == wanted.0 && step.sent().len() == wanted.1;
    txns.commit(step);
    Some(told)
}

// The approval comes when the minute is over: it is refused, and the next look ends the transaction.
fn is_refused(alloc: Global, txns: &mut TxnShards, dir: &Directory) -> Option<bool> {
    let asked = (Reply::Ack(None), 1);
    let opened = is_told(txns, dir, b"beta", collect(alloc)?, START, asked)?;
    let early = is_looked_at(txns, dir, START + 59, (Reply::NotDue, 0))?;
    let expired = (Reply::Ack(Some(Code::Expired)), 0);
    let refused = is_told(txns, dir, b"alpha", approval(alloc)?, START + 60, expired)?;
    let due = txns.due(START + 59).ok()?.is_empty() && txns.due(START + 60).ok()?.len() == 1;
    let late = is_looked_at(txns, dir, START + 60, (Reply::Acted, 2))?;
    Some(opened && early && refused && due && late)
}

// The transaction's outcomes before its approval came, and after it: open, and had the switch closed.
fn outcomes(alloc: Global, txns: &mut TxnShards, dir: &Directory) -> Option<[Option<Outcome>; 3]> {
    let txn = TxnId::read(b"C1")?;
    let before = txns.outcome(&txn, true);
    if txns.find(&txn).is_some() || !is_refused(alloc, txns, dir)? {
        return None;
    }
    let ended = txns.outcome(&txn, false);
    txns.find(&txn)?;
    Some([before, ended, txns.outcome(&txn, true)])
}

#[test]
fn an_approval_at_the_due_moment_is_late(rt: HostRuntime) -> Result<(), Fail> {
    let dir = directory(rt.alloc())?;
    let mut txns = TxnShards::new(rt.alloc(), RandomState::new(&rt)?)?;
    let found = outcomes(rt.alloc(), &mut txns, &dir);
    let expired = Some(Outcome::Failure(Code::Expired));
    assert!(rt; found == Some([None, expired, expired]));
    Ok(())
}

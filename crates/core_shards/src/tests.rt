//! Payments of 30.00, delivered message by message, and a Close.
ghost use Rattle.std.specs.Prelude.{[], IfOk};
ghost use Rattle.core_shards.specs.Steps.{IsStep};
ghost use Rattle.core_shards.specs.Tables.{StandsAll};

use crate::{CoreShards, Step};
use std::alloc::Global;
use std::hash::RandomState;
use std::test::Fail;
use upi_base::{
    AccountRef, Addr, BankCode, Boxed, Call, Head, Input, Kind, Message, Moment, MsgId, OrgId,
    Outcome, Paise, PayReq, Policy, PspName, Sent, SentList, Setup, SetupLine, SetupLines, TxnId,
    Ver,
};
use vpa_directory::Directory;

const START: u64 = 1_704_067_200;

fn account(name: &[u8], opening: u64) -> Option<SetupLine> {
    Some(SetupLine::Account {
        ac: AccountRef::read(name)?,
        opening: Paise::of(opening)?,
        no_debit: false,
        no_credit: false,
    })
}

fn address(name: &[u8], ac: &[u8], policy: Policy) -> Option<SetupLine> {
    Some(SetupLine::Address {
        addr: Addr::read(name)?,
        ac: AccountRef::read(ac)?,
        policy,
    })
}

// The lines of a setup.
fn line(place: usize) -> Option<SetupLine> {
    match place {
        0 => Some(SetupLine::Bank(BankCode::read(b"AAAA")?)),
        1 => Some(SetupLine::Bank(BankCode::read(b"BBBB")?)),
        2 => Some(SetupLine::Psp(PspName::read(b"alpha")?)),
        3 => Some(SetupLine::Psp(PspName::read(b"beta")?)),
        4 => account(b"AAAA/1", 10_000),
        5 => account(b"BBBB/1", 500),
        6 => address(b"ann@alpha", b"AAAA/1", Policy::Yes),
        _ => address(b"bob@beta", b"BBBB/1", Policy::Yes),
    }
}

fn directory(alloc: Global) -> Result<Directory, Fail> {
    let mut lines = SetupLines::new(alloc);
    for place in 0..8 {
        lines.push(line(place).ok_or("a line")?)?;
    }
    let start = Moment::of(START).ok_or("a moment")?;
    let dir = Directory::build(alloc, Setup { start, lines }).ok();
    Ok(dir.ok_or("a setup")?)
}

fn head() -> Option<Head> {
    Some(Head {
        msg_id: MsgId::read(b"A1")?,
        org: OrgId::read(b"alpha")?,
        ts: Moment::of(START)?,
        ver: Ver::One,
    })
}

// Ann pays Bob 30.00.
fn payment(alloc: Global, txn: &[u8]) -> Option<Call> {
    let asked = PayReq {
        head: Head {
            ver: Ver::One,
            ..head()?
        },
        kind: Kind::Pay,
        txn: TxnId::read(txn)?,
        note: None,
        expire: None,
        payer: Addr::read(b"ann@alpha")?,
        payee: Addr::read(b"bob@beta")?,
        amount: Paise::of(3_000)?,
        payer_ac: None,
        payee_ac: None,
        extra: None,
    };
    let message = Message::Pay(Boxed::new(alloc, asked).ok()?);
    let psp = PspName::read(b"alpha")?;
    let input = Input::Good(message);
    Some(Call::Hear { psp, input })
}

// The message that a call delivers, if it was sent.
fn message_of<'a>(sent: &'a [Sent], call: &Call) -> Option<&'a Sent> {
    match call {
        Call::Deliver(n) => sent.get((*n as usize).checked_sub(1)?),
        _ => None,
    }
}

// Commits a step, and gives its messages.
fn commit(core: &mut CoreShards, step: Step) -> SentList
    requires { IsStep core.old step }
{
    let mut step = step;
    let sent = step.take_sent();
    core.commit(step);
    sent
}

// A call on the tables, whose messages go behind those that were sent.
fn call(core: &mut CoreShards, sent: &mut Vec<Sent>, call: &Call) -> Option<()> {
    let now = Moment::of(START)?;
    let message = message_of(sent, call);
    if !core.can_plan(call, message) {
        return None;
    }
    match core.plan(call, message, now) {
        Ok(step) => {
            let mut more = commit(core, step).into_items();
            sent.append(&mut more).ok()
        }
        Err(_) => None,
    }
}

// What Ann and Bob have, and the money in flight.
fn held(core: &CoreShards) -> Option<(u64, u64, u128)> {
    let ann = core.balance(&AccountRef::read(b"AAAA/1")?)?;
    let bob = core.balance(&AccountRef::read(b"BBBB/1")?)?;
    Some((ann, bob, core.flight()))
}

// Deliveries of the messages of these numbers, and what is held then.
fn delivered(
    core: &mut CoreShards,
    sent: &mut Vec<Sent>,
    numbers: &[u64],
) -> Option<(u64, u64, u128)> {
    for number in numbers {
        call(core, sent, &Call::Deliver(*number))?;
    }
    held(core)
}

fn core(rt: &HostRuntime) -> Result<CoreShards, Fail>
    ensures { IfOk result (λ c. StandsAll [] c) }
{
    let dir = directory(rt.alloc())?;
    let hashes = RandomState::new(rt)?;
    Ok(CoreShards::new(rt.alloc(), hashes, dir)?)
}

fn played(alloc: Global, core: &mut CoreShards) -> Option<bool> {
    let mut sent = Vec::new(alloc);
    call(core, &mut sent, &payment(alloc, b"T1")?)?;
    let debited = delivered(core, &mut sent, &[1, 2, 3])? == (7_000, 500, 3_000);
    let credited = delivered(core, &mut sent, &[4, 5, 5, 6])? == (7_000, 3_500, 0);
    let ended = core.outcome(&TxnId::read(b"T1")?) == Some(Outcome::Success);
    call(core, &mut sent, &payment(alloc, b"T2")?)?;
    let again = delivered(core, &mut sent, &[10, 11, 12])? == (4_000, 3_500, 3_000);
    Some(debited && credited && ended && again && sent.len() == 13)
}

// How many transactions are due at these moments.
fn due(core: &CoreShards, moments: [u64; 2]) -> Option<(usize, usize)> {
    let first = core.due(moments[0]).ok()?.len();
    Some((first, core.due(moments[1]).ok()?.len()))
}

// Whether the report has the first payment as made, and the second as running.
fn is_reported(core: &CoreShards) -> Option<bool> {
    let rows = core.rows().ok()?;
    let (first, second) = (rows.first()?, rows.get(1)?);
    let made = first.outcome == Some(Outcome::Success) && first.credit_moved;
    let runs = second.outcome.is_none() && !second.credit_moved;
    Some(rows.len() == 2 && made && runs && core.opening(&second.txn).is_some())
}

// Whether two payments go as they should.
fn is_right(alloc: Global, core: &mut CoreShards) -> Option<bool> {
    let played = played(alloc, core)?;
    let awaited = due(core, [START + 29, START + 30])? == (0, 2);
    let held = core.balances().ok()?.len() == 2;
    Some(played && awaited && held && is_reported(core)?)
}

#[test]
fn one_payment_is_made_and_another_runs(rt: HostRuntime) -> Result<(), Fail> {
    let mut core = core(&rt)?;
    let right = is_right(rt.alloc(), &mut core);
    assert!(rt; right == Some(true));
    Ok(())
}

// How many reversals a Close makes arrive, and what is held after it.
fn closed(core: &mut CoreShards) -> Result<(usize, (u64, u64, u128)), Fail>
    requires { StandsAll [] core.old }
{
    let returns = core.plan_close()?;
    let many = returns.len();
    core.commit_close(returns);
    Ok((many, held(core).ok_or("what is held")?))
}

#[test]
fn a_close_without_payments_returns_nothing(rt: HostRuntime) -> Result<(), Fail> {
    let mut core = core(&rt)?;
    let ended = closed(&mut core)?;
    assert!(rt; ended == (0, (10_000, 500, 0)));
    Ok(())
}

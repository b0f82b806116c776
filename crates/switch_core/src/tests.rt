//! An approval that comes late, with no Late before it.
use super::*;
use std::alloc::Global;
use std::hash::RandomState;
use std::test::Fail;
use upi_base::{
    AccountRef, Addr, AuthResp, BankCode, Boxed, Call, Code, Head, Input, Kind, Message, Minutes,
    Moment, MsgId, OrgId, Outcome, Paise, PayReq, Policy, PspName, Reply, Setup, SetupLine,
    SetupLines, TxnId, Ver,
};

const START: u64 = 1_704_067_200;

fn account(name: &[u8], opening: u64) -> Option<SetupLine> {
    Some(SetupLine::Account {
        ac: AccountRef::read(name)?,
        opening: Paise::of(opening)?,
        no_debit: false,
        no_credit: false,
    })
}

fn address(name: &[u8], ac: &[u8], policy: Policy) -> Option<SetupLine> {
    Some(SetupLine::Address {
        addr: Addr::read(name)?,
        ac: AccountRef::read(ac)?,
        policy,
    })
}

// The lines of a setup in which somebody else answers for Ann.
fn line(place: usize) -> Option<SetupLine> {
    match place {
        0 => Some(SetupLine::Bank(BankCode::read(b"AAAA")?)),
        1 => Some(SetupLine::Bank(BankCode::read(b"BBBB")?)),
        2 => Some(SetupLine::Psp(PspName::read(b"alpha")?)),
        3 => Some(SetupLine::Psp(PspName::read(b"beta")?)),
        4 => account(b"AAAA/1", 10_000),
        5 => account(b"BBBB/1", 500),
        6 => address(b"ann@alpha", b"AAAA/1", Policy::Ask),
        _ => address(b"bob@beta", b"BBBB/1", Policy::Yes),
    }
}

fn lines(alloc: Global) -> Option<SetupLines> {
    let mut lines = SetupLines::new(alloc);
    for place in 0..8 {
        lines.push(line(place)?).ok()?;
    }
    Some(lines)
}

fn switch(rt: &HostRuntime) -> Result<Core, Fail> {
    let start = Moment::of(START).ok_or("a moment")?;
    let lines = lines(rt.alloc()).ok_or("lines")?;
    let hashes = RandomState::new(rt)?;
    let core = Core::new(rt.alloc(), hashes, Setup { start, lines }).ok();
    Ok(core.ok_or("a switch")?)
}

fn head() -> Option<Head> {
    Some(Head {
        msg_id: MsgId::read(b"A1")?,
        org: OrgId::read(b"alpha")?,
        ts: Moment::of(START)?,
        ver: Ver::One,
    })
}

// Bob asks for 30.00 from Ann, who has a minute.
fn collect(alloc: Global) -> Option<Message> {
    let asked = PayReq {
        head: Head {
            ver: Ver::One,
            ..head()?
        },
        kind: Kind::Collect,
        txn: TxnId::read(b"C1")?,
        note: None,
        expire: Minutes::of(1),
        payer: Addr::read(b"ann@alpha")?,
        payee: Addr::read(b"bob@beta")?,
        amount: Paise::of(3_000)?,
        payer_ac: None,
        payee_ac: None,
        extra: None,
    };
    Some(Message::Pay(Boxed::new(alloc, asked).ok()?))
}

// Ann approves.
fn approval(alloc: Global) -> Option<Message> {
    let word = AuthResp {
        head: head()?,
        req_msg: MsgId::read(b"M1")?,
        txn: TxnId::read(b"C1")?,
        yes: true,
        amount: Paise::of(3_000)?,
        payer_ac: None,
        payee_ac: None,
    };
    Some(Message::AuthAnswer(Boxed::new(alloc, word).ok()?))
}

// The reply to a message that a PSP sends.
fn hear(core: &mut Core, psp: &[u8], message: Message, now: Moment) -> Option<Reply> {
    let psp = PspName::read(psp)?;
    if !core.directory().has_psp(&psp) {
        return None;
    }
    let input = Input::Good(message);
    Some(core.apply(Call::Hear { psp, input }, now).ok()?.reply)
}

// The replies to the collect, to its approval a minute later, to a Late then, and to the Close.
fn replies(alloc: Global, core: &mut Core) -> Option<[Reply; 4]> {
    let due = Moment::of(START + 60)?;
    let opened = hear(core, b"beta", collect(alloc)?, Moment::of(START)?)?;
    let approved = hear(core, b"alpha", approval(alloc)?, due)?;
    let late = core.apply(Call::Late(TxnId::read(b"C1")?), due).ok()?;
    let closed = core.apply(Call::Close, due).ok()?;
    Some([opened, approved, late.reply, closed.reply])
}

// How the collect ends, how many entries and messages there are, and the money in flight.
fn ending(core: &Core) -> Option<(Option<Outcome>, u64, u64, u128)> {
    let name = TxnId::read(b"C1")?;
    Some((
        core.outcome(&name),
        core.len(),
        core.sent_count(),
        core.flight(),
    ))
}

#[test]
fn an_approval_at_the_due_moment_is_late(rt: HostRuntime) -> Result<(), Fail> {
    let expired = Code::Expired;
    let expected = [
        Reply::Ack(None),
        Reply::Ack(Some(expired)),
        Reply::Acted,
        Reply::Closed,
    ];
    let mut core = switch(&rt)?;
    let replies = replies(rt.alloc(), &mut core);
    let ending = ending(&core);
    assert!(rt; replies == Some(expected));
    assert!(rt; ending == Some((Some(Outcome::Failure(expired)), 4, 3, 0)));
    Ok(())
}

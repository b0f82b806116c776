//! What each policy answers, and what isn't answered.
use super::*;
use std::alloc::Global;
use std::test::Fail;
use upi_base::{
    AccountRef, BankCode, Boxed, Extra, Moment, MsgId, Outcome, Paise, PspName, SetupLine,
    TwoDigits,
};

// A message to PSP beta, the addresses that it names, its version, and what beta answers.
const CASES: &str = "PAY bob@beta ann@beta 1.0 YES
PAY ann@beta bob@beta 1.0 NO
PAY ann@beta bob@beta 2.0 NO
PAY ann@beta cy@beta 1.0 -
PAY ann@beta zed@beta 1.0 -
COLLECT ann@beta bob@beta 2.0 YES
COLLECT bob@beta ann@beta 1.0 NO
COLLECT cy@beta ann@beta 2.0 -
COLLECT zed@beta ann@beta 2.0 -
CONFIRM - - 1.0 CONFIRMED
CONFIRM - - 2.0 CONFIRMED
RESPPAY - - 2.0 -";

fn word_at(line: &str, place: usize) -> &str {
    line.split(" ").nth(place).unwrap_or("")
}

fn address(name: &[u8], policy: Policy) -> Option<SetupLine> {
    Some(SetupLine::Address {
        addr: Addr::read(name)?,
        ac: AccountRef::read(b"AAAA/1")?,
        policy,
    })
}

// The lines of a setup: three addresses at PSP beta, one of each policy.
fn line(place: usize) -> Option<SetupLine> {
    match place {
        0 => Some(SetupLine::Bank(BankCode::read(b"AAAA")?)),
        1 => Some(SetupLine::Psp(PspName::read(b"beta")?)),
        2 => Some(SetupLine::Account {
            ac: AccountRef::read(b"AAAA/1")?,
            opening: Paise::of(10_000)?,
            no_debit: false,
            no_credit: false,
        }),
        3 => address(b"ann@beta", Policy::Yes),
        4 => address(b"bob@beta", Policy::No),
        _ => address(b"cy@beta", Policy::Ask),
    }
}

fn directory(alloc: Global) -> Option<Directory> {
    let mut directory = Directory::new(alloc, Moment::of(0)?);
    for place in 0..6 {
        directory.add(line(place)?).ok()?;
    }
    Some(directory)
}

fn version(case: &str) -> Ver {
    if word_at(case, 3) == "2.0" {
        Ver::Two
    } else {
        Ver::One
    }
}

fn extra(ver: Ver) -> Option<Extra> {
    match ver {
        Ver::One => None,
        Ver::Two => Some(Extra {
            mode: TwoDigits::read(b"01")?,
            purpose: TwoDigits::read(b"05")?,
        }),
    }
}

// The question on 30.00.
fn question(alloc: Global, kind: Kind, case: &str) -> Option<Body> {
    let question = AuthQuestion {
        txn: TxnId::read(b"T1")?,
        kind,
        payer: Addr::read(word_at(case, 1).as_bytes())?,
        payee: Addr::read(word_at(case, 2).as_bytes())?,
        amount: Paise::of(3_000)?,
        note: None,
        extra: extra(version(case)),
    };
    Some(Body::ReqAuth(Boxed::new(alloc, question).ok()?))
}

fn body(alloc: Global, case: &str) -> Option<Body> {
    match word_at(case, 0) {
        "PAY" => question(alloc, Kind::Pay, case),
        "COLLECT" => question(alloc, Kind::Collect, case),
        "CONFIRM" => Some(Body::Confirm {
            txn: TxnId::read(b"T1")?,
            kind: Kind::Pay,
            outcome: Outcome::Deemed,
        }),
        _ => Some(Body::Result {
            txn: TxnId::read(b"T1")?,
            kind: Kind::Pay,
            outcome: Outcome::Deemed,
            req_msg: MsgId::read(b"A1")?,
        }),
    }
}

fn message(alloc: Global, case: &str) -> Option<Sent> {
    Some(Sent {
        from: Party::Switch,
        to: Party::Psp(PspName::read(b"beta")?),
        body: body(alloc, case)?,
        ver: version(case),
    })
}

fn told(body: &Body) -> &'static str {
    match body {
        Body::RespAuth {
            txn: _txn,
            amount,
            yes,
        } => match (*yes, amount.get()) {
            (true, 3_000) => "YES",
            (false, 3_000) => "NO",
            _ => "another amount",
        },
        Body::Confirmed { txn: _txn } => "CONFIRMED",
        _ => "another message",
    }
}

// Whether beta answers so, in the version of the message.
fn is_answered(alloc: Global, directory: &Directory, case: &str) -> Option<bool> {
    let message = message(alloc, case)?;
    match answer(directory, &message) {
        None => Some(word_at(case, 4) == "-"),
        Some(sent) => Some(
            told(&sent.body) == word_at(case, 4)
                && sent.ver == message.ver
                && sent.from == message.to
                && sent.to == Party::Switch,
        ),
    }
}

// The first case that isn't answered so.
fn first_wrong(alloc: Global) -> Result<Option<&'static str>, Fail> {
    let directory = directory(alloc).ok_or("a setup")?;
    for case in CASES.lines() {
        if is_answered(alloc, &directory, case) != Some(true) {
            return Ok(Some(case));
        }
    }
    Ok(None)
}

#[test]
fn answers_by_policy(rt: HostRuntime) -> Result<(), Fail> {
    assert_eq!(rt; first_wrong(rt.alloc())?, None);
    Ok(())
}

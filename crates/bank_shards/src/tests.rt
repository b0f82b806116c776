use crate::BankShards;
use std::alloc::Global;
use std::hash::RandomState;
use std::test::Fail;
use upi_base::{
    AccountRef, Addr, Answer, BankCode, Body, Boxed, Code, Leg, Moment, Paise, Party, Reply, Sent,
    Setup, SetupLine, SetupLines, TxnId, Ver,
};
use vpa_directory::Directory;

// The number of a transaction, the leg, the number of an account and the amount of an order; how it
// must be answered; and what the account must have then.
type Case = (u8, Leg, u8, u64, Answer, u64);

const POSTED: Answer = Answer::Posted;

const CASES: [Case; 7] = [
    (1, Leg::Debit, 0, 3_000, POSTED, 7_000),
    (1, Leg::Debit, 0, 3_000, POSTED, 7_000),
    (1, Leg::Credit, 1, 3_000, POSTED, 3_500),
    (2, Leg::Debit, 2, 1, Answer::Declined(Code::Funds), 0),
    (2, Leg::Credit, 2, 1, POSTED, 1),
    (1, Leg::Reversal, 0, 3_000, POSTED, 10_000),
    (3, Leg::Debit, 0, 10_000, POSTED, 0),
];

fn account(number: u8) -> Option<AccountRef> {
    AccountRef::read(&[b'A', b'A', b'A', b'A', b'/', number % 10 + b'0'])
}

fn order(alloc: Global, txn: u8, leg: Leg, ac: u8, amount: u64) -> Option<Sent> {
    let ac = account(ac)?;
    Some(Sent {
        from: Party::Switch,
        to: Party::Bank(ac.bank.copy()),
        body: Body::Order {
            txn: TxnId::read(&[b'T', txn % 10 + b'0'])?,
            leg,
            amount: Paise::of(amount)?,
            ac: Boxed::new(alloc, ac).ok()?,
            addr: Boxed::new(alloc, Addr::read(b"ann@alpha")?).ok()?,
            extra: None,
        },
        ver: Ver::One,
    })
}

// A line of the setup: a bank, and accounts at it.
fn line(place: u8) -> Option<SetupLine> {
    if place == 0 {
        return Some(SetupLine::Bank(BankCode::read(b"AAAA")?));
    }
    let opening = match place {
        1 => 10_000,
        2 => 500,
        _ => 0,
    };
    Some(SetupLine::Account {
        ac: account(place - 1)?,
        opening: Paise::of(opening)?,
        no_debit: false,
        no_credit: false,
    })
}

fn banks(rt: &HostRuntime) -> Result<BankShards, Fail> {
    let alloc = rt.alloc();
    let mut lines = SetupLines::new(alloc);
    for place in 0..9 {
        lines.push(line(place).ok_or("a line")?)?;
    }
    let start = Moment::of(1_704_067_200).ok_or("a moment")?;
    let dir = Directory::build(alloc, Setup { start, lines }).ok();
    let banks = BankShards::over(alloc, RandomState::new(rt)?, &dir.ok_or("a setup")?)?;
    Ok(banks)
}

// Whether an order is planned and committed as it must be.
fn is_played(alloc: Global, banks: &mut BankShards, case: &Case) -> Option<bool> {
    let (txn, leg, ac, amount, answer, wanted) = *case;
    let message = order(alloc, txn, leg, ac, amount)?;
    let ac = account(ac)?;
    if !banks.can_post(&message) {
        return None;
    }
    let step = banks.plan(&message).ok()?;
    let planned = *step.reply() == Reply::Leg(answer) && step.sent().len() == 1;
    banks.commit(step);
    Some(planned && banks.balance(&ac) == Some(wanted))
}

// Whether all orders of the table are.
fn all_played(alloc: Global, banks: &mut BankShards) -> Option<bool> {
    for case in &CASES {
        if !is_played(alloc, banks, case)? {
            return Some(false);
        }
    }
    let txn = TxnId::read(b"T2")?;
    let answered = banks.answered(&account(2)?, &txn, Leg::Credit);
    Some(answered == Some(POSTED) && banks.balance(&account(8)?).is_none())
}

#[test]
fn orders_are_planned_and_committed(rt: HostRuntime) -> Result<(), Fail> {
    let mut banks = banks(&rt)?;
    assert!(rt; all_played(rt.alloc(), &mut banks) == Some(true));
    Ok(())
}

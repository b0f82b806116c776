ghost use Rattle.std.specs.Prelude.{◌≡◌, []};

use crate::AccountShard;
use bank_book::Book;
use leg_post::Posts;
use std::alloc::Global;
use std::hash::RandomState;
use std::test::Fail;
use upi_base::limits::MAX_AMOUNT;
use upi_base::{
    Account, AccountRef, Addr, Answer, Body, Boxed, Code, Leg, Paise, Party, Reply, Sent, TxnId,
    Ver,
};

// The number of a transaction, the leg, the number of an account and the amount of an order; how it
// must be answered; whether it moves its amount; and what the account must have then.
type Case = (u8, Leg, u8, u64, Answer, bool, u64);

const POSTED: Answer = Answer::Posted;

const CASES: [Case; 8] = [
    (1, Leg::Debit, 0, 3_000, POSTED, true, 7_000),
    (1, Leg::Debit, 0, 3_000, POSTED, false, 7_000),
    (1, Leg::Credit, 1, 3_000, POSTED, true, 3_500),
    (
        2,
        Leg::Debit,
        1,
        3_501,
        Answer::Declined(Code::Funds),
        false,
        3_500,
    ),
    (2, Leg::Credit, 1, 1, POSTED, true, 3_501),
    (
        2,
        Leg::Debit,
        1,
        3_501,
        Answer::Declined(Code::Funds),
        false,
        3_501,
    ),
    (1, Leg::Reversal, 0, 3_000, POSTED, true, 10_000),
    (3, Leg::Debit, 0, 10_000, POSTED, true, 0),
];

fn account(number: u8) -> Option<AccountRef> {
    AccountRef::read(&[b'A', b'A', b'A', b'A', b'/', number % 10 + b'0'])
}

fn order(alloc: Global, txn: u8, leg: Leg, ac: u8, amount: u64) -> Result<Sent, Fail> {
    let ac = account(ac).ok_or("an account")?;
    Ok(Sent {
        from: Party::Switch,
        to: Party::Bank(ac.bank.copy()),
        body: Body::Order {
            txn: TxnId::read(&[b'T', txn % 10 + b'0']).ok_or("a name")?,
            leg,
            amount: Paise::of(amount).ok_or("a sum")?,
            ac: Boxed::new(alloc, ac)?,
            addr: Boxed::new(alloc, Addr::read(b"ann@alpha").ok_or("an address")?)?,
            extra: None,
        },
        ver: Ver::One,
    })
}

fn open(shard: &mut AccountShard, number: u8, opening: u64) -> Result<(), Fail>
    requires { shard.old.legs ≡ [] }
    ensures { shard.new.legs ≡ [] }
{
    let ac = account(number).ok_or("an account")?;
    let opening = Paise::of(opening).ok_or("a sum")?;
    if shard.balance(&ac).is_none() {
        shard.open(Account {
            ac,
            opening,
            no_debit: false,
            no_credit: false,
        })?;
    }
    Ok(())
}

// Whether an order is planned and committed as it must be.
fn is_played(alloc: Global, shard: &mut AccountShard, case: &Case) -> Result<bool, Fail> {
    let (txn, leg, ac, amount, answer, moves, wanted) = *case;
    let message = order(alloc, txn, leg, ac, amount)?;
    let ac = account(ac).ok_or("an account")?;
    if !shard.can_post(&message) {
        return Ok(false);
    }
    let step = shard.plan(&message)?;
    let planned = *step.reply() == Reply::Leg(answer) && step.sent().len() == 1;
    let moved = step.moved().is_some() == moves;
    shard.commit(step);
    Ok(planned && moved && shard.balance(&ac) == Some(wanted))
}

fn shard(rt: &HostRuntime) -> Result<AccountShard, Fail> {
    let alloc = rt.alloc();
    let book = Book::new(alloc, RandomState::new(rt)?);
    let posts = Posts::new(alloc, RandomState::new(rt)?, book);
    let mut shard = AccountShard::new(alloc, posts);
    open(&mut shard, 0, 10_000)?;
    open(&mut shard, 1, 500)?;
    Ok(shard)
}

#[test]
fn orders_are_planned_and_committed(rt: HostRuntime) -> Result<(), Fail> {
    let mut shard = shard(&rt)?;
    for case in &CASES {
        assert!(rt; is_played(rt.alloc(), &mut shard, case)?);
    }
    assert!(rt; shard.kept() == 6);
    Ok(())
}

// What an order moves where it arrives at a Close.
fn arrived(
    alloc: Global,
    shard: &mut AccountShard,
    txn: u8,
    leg: Leg,
    amount: u64,
) -> Result<Option<Paise>, Fail> {
    let message = order(alloc, txn, leg, 0, amount)?;
    shard.reserve(1)?;
    if !shard.can_post(&message) {
        return Err(Fail::from("it can't be posted"));
    }
    Ok(shard.arrive(message))
}

#[test]
fn a_reversal_arrives_once(rt: HostRuntime) -> Result<(), Fail> {
    let mut shard = shard(&rt)?;
    let debited = arrived(rt.alloc(), &mut shard, 1, Leg::Debit, 3_000)?;
    let returned = arrived(rt.alloc(), &mut shard, 1, Leg::Reversal, 3_000)?;
    let again = arrived(rt.alloc(), &mut shard, 1, Leg::Reversal, 3_000)?;
    let nothing = arrived(rt.alloc(), &mut shard, 2, Leg::Reversal, 3_000)?;
    assert!(rt; debited.is_some() && returned == debited && again.is_none() && nothing.is_none());
    let ac = account(0).ok_or("an account")?;
    assert!(rt; shard.balance(&ac) == Some(10_000));
    Ok(())
}

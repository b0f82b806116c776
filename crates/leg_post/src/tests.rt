ghost use Rattle.std.specs.Prelude.{IfOk};
ghost use Rattle.leg_post.specs.Posts.{IsBounded};

use super::*;
use std::test::Fail;
use upi_base::Code;
use upi_base::limits::{CREDIT_CAP, MAX_AMOUNT};

// The number of a transaction, the leg, the number of an account and the amount of an order; how it
// must be answered; and what the account must have then.
type Case = (u8, Leg, u8, u64, Answer, u64);

const POSTED: Answer = Answer::Posted;

const FUNDS: Answer = Answer::Declined(Code::Funds);

const NO_DEBIT: Answer = Answer::Declined(Code::NoDebit);

const NO_CREDIT: Answer = Answer::Declined(Code::NoCredit);

const CAP: Answer = Answer::Declined(Code::Cap);

const NOTHING: Answer = Answer::Declined(Code::Nothing);

const REVERSED: Answer = Answer::Declined(Code::Reversed);

const CASES: [Case; 22] = [
    // The whole balance, in the one place that there is room for; again; again, of another amount to
    // an account that takes no debits; and one paisa more than there is.
    (1, Leg::Debit, 0, 10_000, POSTED, 0),
    (1, Leg::Debit, 0, 10_000, POSTED, 0),
    (1, Leg::Debit, 1, 5, POSTED, 10_000),
    (2, Leg::Debit, 0, 1, FUNDS, 0),
    // The flags bind their own leg, and go before the balance. A reversal isn't a credit.
    (3, Leg::Debit, 1, 10_001, NO_DEBIT, 10_000),
    (3, Leg::Credit, 1, 1, POSTED, 10_001),
    (4, Leg::Credit, 2, 1, NO_CREDIT, 500),
    (4, Leg::Debit, 2, 1, POSTED, 499),
    (4, Leg::Reversal, 2, 1, POSTED, 500),
    // A credit up to the cap, and one past it. A reversal isn't bound by the cap.
    (5, Leg::Credit, 4, 1, POSTED, CREDIT_CAP),
    (5, Leg::Debit, 3, 1, POSTED, CREDIT_CAP - 1),
    (6, Leg::Credit, 3, 1, POSTED, CREDIT_CAP),
    (7, Leg::Credit, 3, 1, CAP, CREDIT_CAP),
    (5, Leg::Reversal, 3, 1, POSTED, CREDIT_CAP + 1),
    // A reversal returns what was debited, once, and nothing else.
    (1, Leg::Reversal, 0, 10_000, POSTED, 10_000),
    (1, Leg::Reversal, 0, 10_000, POSTED, 10_000),
    (2, Leg::Reversal, 0, 1, NOTHING, 10_000),
    (8, Leg::Reversal, 1, 1, NOTHING, 10_001),
    // A debit that arrives after its reversal, also where a flag declines it.
    (8, Leg::Debit, 1, 1, REVERSED, 10_001),
    (9, Leg::Reversal, 0, 1, NOTHING, 10_000),
    (9, Leg::Debit, 0, 1, REVERSED, 10_000),
    // What was declined stays declined, though there is money now.
    (2, Leg::Debit, 0, 1, FUNDS, 10_000),
];

// The account of a number, AAAA/0 for 0.
fn account(number: u8) -> Option<AccountRef> {
    AccountRef::read(&[b'A', b'A', b'A', b'A', b'/', number % 10 + b'0'])
}

#[tactic(auto, using(crate::proofs::Opens::opens_more))]
fn open(book: &mut Book, number: u8, opening: u64, flags: (bool, bool)) -> Result<(), Fail>
    requires { IsBounded 0 book.old }
    ensures { IsBounded 0 book.new }
{
    let ac = account(number).ok_or("an account")?;
    let opening = Paise::of(opening).ok_or("a sum")?;
    if book.holding(&ac).is_none() {
        book.add(ac, opening, flags.0, flags.1)?;
    }
    Ok(())
}

// Whether an order is answered as it must be: by a look, and then by a post.
fn is_answered(posts: &mut Posts, case: &Case) -> Result<bool, Fail> {
    let (txn, leg, ac, amount, answer, wanted) = *case;
    let txn = TxnId::read(&[b'T', txn % 10 + b'0']).ok_or("a name")?;
    let ac = account(ac).ok_or("an account")?;
    let amount = Paise::of(amount).ok_or("a sum")?;
    let there = posts.book().holding(&ac).is_some();
    if !there || amount.get() > MAX_AMOUNT || posts.spare() == 0 || posts.kept() > 1000 {
        return Ok(false);
    }
    let looked = posts.look(&txn, leg, &ac, amount);
    let posted = posts.post(txn, leg, &ac, amount);
    let balance = posts.book().balance(&ac);
    Ok(looked == answer && posted == answer && balance == Some(wanted))
}

#[tactic(auto, using(crate::proofs::Opens::opens_none))]
fn books(alloc: Global, hashes: RandomState) -> Result<Book, Fail>
    ensures { IfOk result (λ book. IsBounded 0 book) }
{
    let mut book = Book::new(alloc, hashes);
    open(&mut book, 0, 10_000, (false, false))?;
    open(&mut book, 1, 10_000, (true, false))?;
    open(&mut book, 2, 500, (false, true))?;
    open(&mut book, 3, CREDIT_CAP, (false, false))?;
    open(&mut book, 4, CREDIT_CAP - 1, (false, false))?;
    Ok(book)
}

#[test]
fn a_leg_is_posted_once(rt: HostRuntime) -> Result<(), Fail> {
    let alloc = rt.alloc();
    let book = books(alloc, RandomState::new(&rt)?)?;
    let mut posts = Posts::new(alloc, RandomState::new(&rt)?, book);
    for case in &CASES {
        posts.reserve(1)?;
        assert!(rt; is_answered(&mut posts, case)?);
    }
    assert!(rt; posts.kept() == 18);
    Ok(())
}

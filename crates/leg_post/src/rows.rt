//! The table of legs, and how a bank answers the first order for one.
ghost use Rattle.std.specs.Prelude.{◌≡◌, ◌<◌, ◌^◌, Some};
ghost use Rattle.bank_book.specs.Book.{holding_at, place_of};
ghost use Rattle.upi_base.specs.declared.setup.AccountRef.{AccountRef as AnAccount};
ghost use Rattle.upi_model.specs.Postings;
ghost use Rattle.leg_post.specs.Posts;
ghost use Rattle.leg_post.specs.Posts.{present};
ghost use Rattle.leg_post.specs.calls.Rows;

use bank_book::{Book, Holding};
use dup_table::DupTable;
use upi_base::limits::CREDIT_CAP;
use upi_base::{AccountRef, Answer, Code, Leg, Paise, TxnId};

/// Which leg of which transaction.
#[derive(Drop, PartialEq, Eq, Hash)]
pub(crate) struct LegKey {
    pub(crate) txn: TxnId,
    pub(crate) leg: Leg,
}

/// What the first order for a leg said, and how it was answered.
#[derive(Drop)]
pub(crate) struct Posting {
    pub(crate) amount: Paise,
    pub(crate) ac: AccountRef,
    pub(crate) answer: Answer,
}

/// Legs that arrived, the first first.
pub(crate) type Table = DupTable<LegKey, Posting>;

/// How a leg was answered, if it was: one look-up.
pub(crate) fn answer_in(rows: &Table, key: &LegKey) -> Option<Answer>
    ensures { result ≡ Rows.answer_in rows.now.rows key.now }
{
    match rows.get(key) {
        Some(row) => Some(row.answer),
        None => None,
    }
}

fn debit_answer(reversed: Option<Answer>, held: &Holding, amount: Paise) -> Answer
    ensures { result ≡ Rows.debit_answer reversed held.now amount }
{
    if reversed.is_some() {
        Answer::Declined(Code::Reversed)
    } else if held.no_debit {
        Answer::Declined(Code::NoDebit)
    } else if held.balance < amount.get() {
        Answer::Declined(Code::Funds)
    } else {
        Answer::Posted
    }
}

fn credit_answer(held: &Holding, amount: Paise) -> Answer
    requires { held.now.balance < 2 ^ 62 }
    ensures { result ≡ Rows.credit_answer held.now amount }
{
    if held.no_credit {
        Answer::Declined(Code::NoCredit)
    } else if held.balance + amount.get() > CREDIT_CAP {
        Answer::Declined(Code::Cap)
    } else {
        Answer::Posted
    }
}

fn reversal_answer(debited: Option<Answer>) -> Answer
    ensures { result ≡ Postings.post_reversal debited }
{
    match debited {
        Some(Answer::Posted) => Answer::Posted,
        _ => Answer::Declined(Code::Nothing),
    }
}

/// How the bank answers the first order for a leg, at an account that has this now. A debit asks
/// whether its reversal came first, a reversal how its debit was answered.
pub(crate) fn first_answer(rows: &Table, key: &LegKey, held: &Holding, amount: Paise) -> Answer
    requires { held.now.balance < 2 ^ 62 }
    ensures { Some result ≡ Postings.post_at (Rows.answers_in rows.now.rows) Posts.has_now key.now.txn amount key.now.leg (Some (present Rows.nobody held.now)) }
{
    match key.leg {
        Leg::Debit => {
            let reversed = answer_in(rows, &other_leg(key, Leg::Reversal));
            debit_answer(reversed, held, amount)
        }
        Leg::Credit => credit_answer(held, amount),
        Leg::Reversal => reversal_answer(answer_in(rows, &other_leg(key, Leg::Debit))),
    }
}

// The key of another leg of the same transaction.
fn other_leg(key: &LegKey, leg: Leg) -> LegKey
    ensures { result ≡ Rows.key_of key.now.txn leg }
{
    LegKey {
        txn: key.txn.copy(),
        leg,
    }
}

/// Moves the amount of a leg that was posted, at the account at a place: a debit takes it, a credit
/// and a reversal give it.
pub(crate) fn move_money(book: &mut Book, leg: Leg, place: usize, amount: Paise, answer: Answer)
    requires { Rows.CanMove leg amount answer (holding_at book.old place) }
    ensures { (ac : AnAccount) → place_of book.old ac ≡ Some place → book.new ≡ Rows.moved_book leg amount answer book.old ac }
{
    match answer {
        Answer::Posted => match leg {
            Leg::Debit => book.take_at(place, amount),
            Leg::Credit => book.give_at(place, amount),
            Leg::Reversal => book.give_at(place, amount),
        },
        Answer::Declined(_code) => {}
    }
}

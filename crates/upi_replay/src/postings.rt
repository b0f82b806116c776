//! What a bank answers to an order, over the rows so far.
ghost use Rattle.std.specs.Prelude.{◌++◌, OnOk, ◌≡◌, ◌≤◌, ◌<◌, ◌*◌, ◌^◌, length};
ghost use Rattle.std.specs.Option.{option_copied};
ghost use Rattle.std.specs.List.{sum_by};
ghost use Rattle.upi_model.specs.Postings;
ghost use Rattle.upi_model.specs.Sending;
ghost use Rattle.upi_replay.specs.Rows;

use crate::rows::{Row, cause_from, due_debit, row_at};
use crate::rules::same_leg;
use upi_base::{
    Account, AccountRef, Addr, Answer, Body, CREDIT_CAP, Code, Leg, NoMemory, Party, PayReq, Sent,
    SetupLine, TxnId, Ver, account_at, same_account,
};
use upi_model::Event;

/// Whether a reversal arrives for a row at the close.
fn is_reversal_due(row: &Row) -> bool
    ensures { result ≡ Rows.row_reversal_due row.now }
{
    (due_debit(row.decision).is_some() && row.debit.is_none())
        || (cause_from(row.debit, row.credit).is_some() && row.reversal.is_none())
}

/// How a leg was answered.
pub(crate) fn answered(row: &Row, leg: Leg) -> Option<Answer>
    ensures { result ≡ Rows.answered row.now leg }
{
    match leg {
        Leg::Debit => row.debited,
        Leg::Credit => row.credited,
        Leg::Reversal => row.reversed,
    }
}

/// Whether a leg was answered, and posted.
pub fn is_posted(answer: Option<Answer>) -> bool
    ensures { result ≡ Postings.is_posted answer }
{
    match answer {
        Some(Answer::Posted) => true,
        _ => false,
    }
}

fn has_account(ac: &AccountRef, account: &Option<Account>) -> bool
    ensures { result ≡ Postings.has_account ac.now account.now }
{
    match account {
        None => false,
        Some(account) => same_account(&account.ac, ac),
    }
}

/// The address at whose account a leg is posted.
pub(crate) fn posted_at(leg: Leg, r: &PayReq) -> &Addr
    ensures { result.now ≡ Postings.posted_at leg r.now }
{
    match leg {
        Leg::Debit => &r.payer,
        Leg::Credit => &r.payee,
        Leg::Reversal => &r.payer,
    }
}

fn share(setup: &[SetupLine], ac: &AccountRef, leg: Leg, row: &Row) -> u64
    ensures share { result ≡ Rows.row_share setup.now ac.now leg row.now }
    ensures bound { result ≤ 1_000_000_000_000_000 }
{
    let terms = &row.opening.terms;
    if has_account(ac, &account_at(setup, posted_at(leg, terms))) && is_posted(answered(row, leg)) {
        terms.amount.get()
    } else {
        0
    }
}

fn total(setup: &[SetupLine], rows: &[Row], ac: &AccountRef, leg: Leg) -> u128
    ensures sum { result ≡ Rows.row_total setup.now rows.now ac.now leg }
    ensures bound { result ≤ 1_000_000_000_000_000 * length rows.now }
{
    let mut sum: u128 = 0;
    for row in rows {
        sum += u128::from(share(setup, ac, leg, row));
    }
    sum
}

/// The balance of an account, in paise.
pub fn balance(setup: &[SetupLine], rows: &[Row], account: &Account) -> u128
    ensures sum { result ≡ Rows.row_balance setup.now rows.now account.now }
    ensures bound { result < 2 ^ 120 }
{
    let returned = total(setup, rows, &account.ac, Leg::Reversal);
    let given = total(setup, rows, &account.ac, Leg::Credit);
    let taken = total(setup, rows, &account.ac, Leg::Debit);
    (u128::from(account.opening.get()) + returned + given).saturating_sub(taken)
}

pub(crate) fn post_debit(
    reversed: Option<Answer>,
    balance: u128,
    amount: u64,
    account: &Account,
) -> Answer
    ensures { result ≡ Postings.post_debit reversed balance amount account.now }
{
    if reversed.is_some() {
        Answer::Declined(Code::Reversed)
    } else if account.no_debit {
        Answer::Declined(Code::NoDebit)
    } else if balance < u128::from(amount) {
        Answer::Declined(Code::Funds)
    } else {
        Answer::Posted
    }
}

pub(crate) fn post_credit(balance: u128, amount: u64, account: &Account) -> Answer
    requires { balance < 2 ^ 120 }
    ensures { result ≡ Postings.post_credit balance amount account.now }
{
    if account.no_credit {
        Answer::Declined(Code::NoCredit)
    } else if balance + u128::from(amount) > u128::from(CREDIT_CAP) {
        Answer::Declined(Code::Cap)
    } else {
        Answer::Posted
    }
}

pub(crate) fn post_reversal(debited: Option<Answer>) -> Answer
    ensures { result ≡ Postings.post_reversal debited }
{
    if is_posted(debited) {
        Answer::Posted
    } else {
        Answer::Declined(Code::Nothing)
    }
}

/// What the bank answers to the first order of a leg.
pub(crate) fn post(setup: &[SetupLine], rows: &[Row], row: &Row, leg: Leg) -> Option<Answer>
    ensures { result ≡ Rows.post_row setup.now rows.now row.now leg }
{
    let terms = &row.opening.terms;
    match leg {
        Leg::Debit => match account_at(setup, &terms.payer) {
            None => None,
            Some(account) => {
                let balance = balance(setup, rows, &account);
                Some(post_debit(row.reversed, balance, terms.amount.get(), &account))
            }
        },
        Leg::Credit => match account_at(setup, &terms.payee) {
            None => None,
            Some(account) => {
                let balance = balance(setup, rows, &account);
                Some(post_credit(balance, terms.amount.get(), &account))
            }
        },
        Leg::Reversal => Some(post_reversal(row.debited)),
    }
}

/// What the bank answers to an order, the first or a later one. An order that comes before its
/// transaction was opened finds nothing to move.
pub(crate) fn order_answer(
    setup: &[SetupLine],
    rows: &[Row],
    row: Option<&Row>,
    leg: Leg,
) -> Option<Answer>
    ensures { result ≡ Rows.order_answer_in setup.now rows.now (option_copied row.entry) leg }
{
    match row {
        None => Some(Answer::Declined(Code::Nothing)),
        Some(row) => match answered(row, leg) {
            Some(answer) => Some(answer),
            None => post(setup, rows, row, leg),
        },
    }
}

/// What the bank says to the order that an event is.
pub(crate) fn said_on(setup: &[SetupLine], rows: &[Row], event: &Event) -> Option<Answer>
    ensures { result ≡ Rows.said_on setup.now rows.now event.now }
{
    match event {
        Event::Ordered { txn, leg } => order_answer(setup, rows, row_at(rows, txn), *leg),
        _ => None,
    }
}

/// The answer that the close brings to a leg: the reversal arrives that is due.
fn closes_leg(row: &Row, leg: Leg) -> Option<Answer>
    ensures { result ≡ Rows.closes_leg row.now leg }
{
    match leg {
        Leg::Debit => None,
        Leg::Credit => None,
        Leg::Reversal => {
            if is_reversal_due(row) {
                Some(post_reversal(row.debited))
            } else {
                None
            }
        }
    }
}

/// The answer that an event brings to a leg, where the bank says so to its order.
fn brought(said: Option<Answer>, event: &Event, row: &Row, leg: Leg) -> Option<Answer>
    ensures { result ≡ Rows.brought said event.now row.now leg }
{
    match event {
        Event::Ordered { txn, leg: of } => {
            if *txn == row.opening.terms.txn && same_leg(*of, leg) {
                said
            } else {
                None
            }
        }
        Event::Close => closes_leg(row, leg),
        _ => None,
    }
}

/// How a leg is answered after an event, where the bank says so to the order that it is.
pub(crate) fn answer_after(
    said: Option<Answer>,
    closed: bool,
    event: &Event,
    row: &Row,
    leg: Leg,
) -> Option<Answer>
    ensures { result ≡ Rows.answer_after said closed event.now row.now leg }
{
    match answered(row, leg) {
        Some(answer) => Some(answer),
        None => {
            if closed {
                None
            } else {
                brought(said, event, row, leg)
            }
        }
    }
}

/// Adds what a bank answers to an order, in the order's version.
pub(crate) fn bank_answer(
    bank: &Party,
    ver: Ver,
    txn: &TxnId,
    leg: Leg,
    answer: Option<Answer>,
    out: &mut Vec<Sent>,
) -> Result<(), NoMemory>
    ensures { OnOk result (out.new.items ≡ out.old.items ++ Sending.bank_answer bank.now ver txn.now leg answer) }
{
    match answer {
        None => Ok(()),
        Some(answer) => {
            out.push(Sent {
                from: bank.copy(),
                to: Party::Switch,
                body: Body::LegAnswer {
                    txn: txn.copy(),
                    leg,
                    answer,
                },
                ver,
            })?;
            Ok(())
        }
    }
}

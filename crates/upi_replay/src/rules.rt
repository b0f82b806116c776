//! The rules that a payment and an answer are judged by.
ghost use Rattle.std.specs.Prelude.{◌≡◌, List, ℕ};
ghost use Rattle.std.specs.Option.{option_copied};
ghost use Rattle.std.specs.List.{list_any, count_by};
ghost use Rattle.upi_model.specs.Places;
ghost use Rattle.upi_replay.specs.Rows.{openings};

use crate::rows::Row;
use upi_base::{
    Account, AccountRef, Addr, Code, DEFAULT_MINUTES, DUE_SECONDS, Kind, Leg, MAX_AMOUNT, PayReq,
    SHARD_ROOM, SetupLine, TxnId, account_at, provider, same_account, txn_shard,
};
use upi_model::{AuthWord, Opening};

pub(crate) fn same_leg(a: Leg, b: Leg) -> bool
    ensures { result ≡ Places.same_leg a b }
{
    match (a, b) {
        (Leg::Debit, Leg::Debit) | (Leg::Credit, Leg::Credit) | (Leg::Reversal, Leg::Reversal) =>
            true,
        _ => false,
    }
}

pub(crate) fn same_kind(a: Kind, b: Kind) -> bool
    ensures { result ≡ Places.same_kind a b }
{
    match (a, b) {
        (Kind::Pay, Kind::Pay) | (Kind::Collect, Kind::Collect) => true,
        _ => false,
    }
}

/// Of two addresses, that of the side that asks.
pub(crate) fn side<'a>(kind: Kind, payer: &'a Addr, payee: &'a Addr) -> &'a Addr
    ensures { result.now ≡ Places.side kind payer.now payee.now }
{
    match kind {
        Kind::Pay => payer,
        Kind::Collect => payee,
    }
}

/// The address of the side that asks.
pub(crate) fn asking_addr(r: &PayReq) -> &Addr
    ensures { result.now ≡ Places.side r.now.kind r.now.payer r.now.payee }
{
    side(r.kind, &r.payer, &r.payee)
}

/// The address of the side that is asked.
pub(crate) fn asked_addr(r: &PayReq) -> &Addr
    ensures { result.now ≡ Places.side r.now.kind r.now.payee r.now.payer }
{
    side(r.kind, &r.payee, &r.payer)
}

/// The PSP of the side that asks.
pub(crate) fn asking(r: &PayReq) -> &[u8]
    ensures { result.now ≡ Places.asking r.now }
{
    provider(asking_addr(r).bytes())
}

/// The PSP of the side that is asked.
pub(crate) fn asked(r: &PayReq) -> &[u8]
    ensures { result.now ≡ Places.asked r.now }
{
    provider(asked_addr(r).bytes())
}

fn agrees(given: &Option<AccountRef>, account: &Option<Account>) -> bool
    ensures { result ≡ Places.agrees given.now account.now }
{
    match given {
        None => true,
        Some(given) => match account {
            None => false,
            Some(account) => same_account(given, &account.ac),
        },
    }
}

fn one_account(a: &Option<Account>, b: &Option<Account>) -> bool
    ensures { result ≡ Places.one_account a.now b.now }
{
    match (a, b) {
        (Some(a), Some(b)) => same_account(&a.ac, &b.ac),
        _ => false,
    }
}

fn opened_in(rows: &[Row], shard: u8) -> usize
    ensures { result ≡ count_by (Places.in_shard shard) (openings rows.now) }
{
    rows.iter()
        .filter(|row| txn_shard(&row.opening.terms.txn) == shard)
        .count()
}

/// Whether the transaction was opened.
pub(crate) fn has_txn(rows: &[Row], txn: &TxnId) -> bool
    ensures { result ≡ list_any (Places.has_id txn.now) (openings rows.now) }
{
    for row in rows {
        if row.opening.terms.txn == *txn {
            return true;
        }
    }
    false
}

/// The first rule that a payment breaks, of a PSP that asks for it.
pub(crate) fn refusal(setup: &[SetupLine], rows: &[Row], psp: &[u8], r: &PayReq) -> Option<Code>
    ensures { result ≡ Places.refusal setup.now (openings rows.now) psp.now r.now }
{
    let payer = account_at(setup, &r.payer);
    let payee = account_at(setup, &r.payee);
    if asking(r) != psp {
        Some(Code::NotYours)
    } else if payer.is_none() || payee.is_none() {
        Some(Code::Addr)
    } else if !(agrees(&r.payer_ac, &payer) && agrees(&r.payee_ac, &payee)) {
        Some(Code::Account)
    } else if one_account(&payer, &payee) {
        Some(Code::Same)
    } else if r.amount.get() == 0 || r.amount.get() > MAX_AMOUNT {
        Some(Code::Amt)
    } else if opened_in(rows, txn_shard(&r.txn)) >= SHARD_ROOM {
        Some(Code::Full)
    } else {
        None
    }
}

/// How many minutes a COLLECT may take.
pub(crate) fn minutes(r: &PayReq) -> u32
    ensures { result ≡ Places.minutes r.now }
{
    match &r.expire {
        None => DEFAULT_MINUTES,
        Some(minutes) => minutes.get(),
    }
}

/// The moment from which an answer is too late.
pub(crate) fn due_answer(opening: &Opening) -> u64
    ensures { result ≡ Places.due_answer opening.now }
{
    match opening.terms.kind {
        Kind::Pay => opening.at.get() + DUE_SECONDS,
        Kind::Collect => opening.at.get() + 60 * u64::from(minutes(&opening.terms)),
    }
}

/// Whether the accounts that an answer gives are the directory's.
pub(crate) fn accounts_agree(setup: &[SetupLine], r: &PayReq, word: &AuthWord) -> bool
    ensures { result ≡ Places.accounts_agree setup.now r.now word.now }
{
    agrees(&word.payer_ac, &account_at(setup, &r.payer))
        && agrees(&word.payee_ac, &account_at(setup, &r.payee))
}

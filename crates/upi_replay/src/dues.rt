//! When a transaction is due.
ghost use Rattle.std.specs.Prelude.{◌≡◌, min};
ghost use Rattle.std.specs.Option.{option_copied};
ghost use Rattle.std.specs.List.{list_any, count_by};
ghost use Rattle.upi_model.specs.History;
ghost use Rattle.upi_model.specs.Dues;
ghost use Rattle.upi_replay.specs.Rows;

use crate::rows::{Row, cause_from, due_credit, due_debit};
use crate::rules::{due_answer, same_leg};
use upi_base::{Body, DUE_SECONDS, Entry, Leg, MAX_CONFIRMATIONS, Moment, Sent, TxnId};

fn orders(txn: &TxnId, leg: Leg, sent: &Sent) -> bool
    ensures { result ≡ Dues.orders txn.now leg sent.now }
{
    match &sent.body {
        Body::Order {
            txn: given,
            leg: of,
            amount: _amount,
            ac: _ac,
            addr: _addr,
            extra: _extra,
        } => given == txn && same_leg(*of, leg),
        _ => false,
    }
}

fn confirms(txn: &TxnId, sent: &Sent) -> bool
    ensures { result ≡ Dues.confirms txn.now sent.now }
{
    match &sent.body {
        Body::Confirm {
            txn: given,
            kind: _kind,
            outcome: _outcome,
        } => given == txn,
        _ => false,
    }
}

fn has_order(txn: &TxnId, leg: Leg, list: &[Sent]) -> bool
    ensures { result ≡ list_any (Dues.orders txn.now leg) list.now }
{
    for sent in list {
        if orders(txn, leg, sent) {
            return true;
        }
    }
    false
}

fn has_confirm(txn: &TxnId, list: &[Sent]) -> bool
    ensures { result ≡ list_any (Dues.confirms txn.now) list.now }
{
    for sent in list {
        if confirms(txn, sent) {
            return true;
        }
    }
    false
}

/// The due moment after an order for the leg was last sent.
fn last_order(history: &[Entry], txn: &TxnId, leg: Leg) -> Option<u64>
    ensures { result ≡ Dues.due_after (Dues.last_sent (Dues.orders txn.now leg) (History.past history.now)) }
{
    let mut last = None;
    for e in history {
        if has_order(txn, leg, e.sent.items()) {
            last = Some(e.at.get() + DUE_SECONDS);
        }
    }
    last
}

/// The due moment after a confirmation was last sent.
fn last_confirm(history: &[Entry], txn: &TxnId) -> Option<u64>
    ensures { result ≡ Dues.due_after (Dues.last_sent (Dues.confirms txn.now) (History.past history.now)) }
{
    let mut last = None;
    for e in history {
        if has_confirm(txn, e.sent.items()) {
            last = Some(e.at.get() + DUE_SECONDS);
        }
    }
    last
}

fn confirms_in(txn: &TxnId, list: &[Sent]) -> usize
    ensures { result ≡ count_by (Dues.confirms txn.now) list.now }
{
    list.iter().filter(|sent| confirms(txn, sent)).count()
}

/// How many confirmations were sent; four where there were more.
fn count_confirms(history: &[Entry], txn: &TxnId) -> usize
    ensures { result ≡ min (count_by (Dues.confirms txn.now) (History.sent (History.past history.now))) MAX_CONFIRMATIONS }
{
    let mut count = 0;
    for e in history {
        count = (count + confirms_in(txn, e.sent.items()).min(MAX_CONFIRMATIONS)).min(
            MAX_CONFIRMATIONS,
        );
    }
    count
}

/// When the confirmation is due again.
fn confirm_due(history: &[Entry], row: &Row) -> Option<u64>
    ensures { result ≡ Rows.row_confirm_due (History.past history.now) row.now }
{
    let txn = &row.opening.terms.txn;
    let few = count_confirms(history, txn) < MAX_CONFIRMATIONS;
    if few && row.acknowledged.is_none() {
        last_confirm(history, txn)
    } else {
        None
    }
}

/// When a leg is due, or a reversal that is awaited.
fn leg_due(history: &[Entry], row: &Row) -> Option<u64>
    ensures { result ≡ Rows.row_leg_due (History.past history.now) row.now }
{
    if cause_from(row.debit, row.credit).is_some() {
        return last_order(history, &row.opening.terms.txn, Leg::Reversal);
    }
    if row.debit.is_none() {
        due_debit(row.decision)
    } else {
        due_credit(row.debit)
    }
}

pub(crate) fn row_due(history: &[Entry], row: &Row) -> Option<u64>
    ensures { result ≡ Rows.row_due (History.past history.now) row.now }
{
    if row.outcome().is_some() {
        confirm_due(history, row)
    } else if row.decision.is_none() {
        Some(due_answer(&row.opening))
    } else {
        leg_due(history, row)
    }
}

/// Whether a transaction is due, after a history that isn't closed.
pub(crate) fn is_due(history: &[Entry], row: Option<&Row>, now: Moment) -> bool
    ensures { result ≡ Dues.passed now (Rows.due_in (History.past history.now) (option_copied row.entry)) }
{
    match row {
        None => false,
        Some(row) => match row_due(history, row) {
            None => false,
            Some(due) => due <= now.get(),
        },
    }
}

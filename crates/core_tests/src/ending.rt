//! Whether two programs end alike: balances, outcomes, due moments, entries and messages.
use crate::both::has_entry;
use std::test::Fail;
use switch_core::Core;
use upi_base::{AccountRef, TxnRow};
use upi_replay::Replay;

// The greatest moment that there is, in seconds since 1970-01-01T00:00:00Z.
const LAST: u64 = 250_000_000_000;

/// Whether the same transactions are due at a moment, with the same due moments.
pub(crate) fn same_due(core: &Core, plain: &Replay, now: u64) -> Result<bool, Fail> {
    let found = core.due(now)?;
    let wanted = plain.due(now)?;
    Ok(found.as_slice() == wanted.as_slice())
}

/// Whether all due moments are the same.
pub(crate) fn same_dues(core: &Core, plain: &Replay) -> Result<bool, Fail> {
    same_due(core, plain, LAST)
}

// Whether an account has so much, asked for by itself.
fn has(core: &Core, (ac, held): &(AccountRef, u64)) -> bool {
    core.balance(ac) == Some(*held)
}

fn same_balances(core: &Core, plain: &Replay) -> Result<bool, Fail> {
    let found = core.balances()?;
    let wanted = plain.balances()?;
    for account in &wanted {
        if !has(core, account) {
            return Ok(false);
        }
    }
    Ok(found.as_slice() == wanted.as_slice())
}

fn same_outcome(core: &Core, plain: &Replay, row: &TxnRow) -> bool {
    core.outcome(&row.txn) == plain.outcome(&row.txn)
}

fn same_outcomes(core: &Core, plain: &Replay) -> Result<bool, Fail> {
    let found = core.rows()?;
    let wanted = plain.rows()?;
    for row in &wanted {
        if !same_outcome(core, plain, row) {
            return Ok(false);
        }
    }
    Ok(found.as_slice() == wanted.as_slice())
}

// Whether the message of a number is the same, or neither has one.
fn same_message(core: &Core, plain: &Replay, n: u64) -> bool {
    match core.message(n) {
        None => plain.message(n).is_none(),
        Some(found) => match plain.message(n) {
            None => false,
            Some(wanted) => *found == *wanted,
        },
    }
}

fn same_messages(core: &Core, plain: &Replay) -> bool {
    for n in 0..1_000_000 {
        if n > plain.sent_count().saturating_add(1) {
            break;
        }
        if !same_message(core, plain, n) {
            return false;
        }
    }
    core.sent_count() == plain.sent_count()
}

// Whether all entries are the same, and no other stands at the places beside them.
fn same_entries(core: &Core, plain: &Replay) -> bool {
    let mut place = 0u64;
    for entry in plain.entries() {
        place = place.saturating_add(1);
        if !has_entry(core, place, entry) {
            return false;
        }
    }
    core.len() == place && core.entry(0).is_none() && core.entry(place.saturating_add(1)).is_none()
}

/// What differs at the end; nothing, where it is empty.
pub(crate) fn differs(core: &Core, plain: &Replay) -> Result<&'static str, Fail> {
    if !same_balances(core, plain)? {
        Ok("balances")
    } else if core.flight() != plain.flight() {
        Ok("money in flight")
    } else if !same_outcomes(core, plain)? {
        Ok("outcomes")
    } else if !same_dues(core, plain)? {
        Ok("due moments")
    } else if core.is_closed() != plain.is_closed() {
        Ok("whether it is closed")
    } else if !same_messages(core, plain) {
        Ok("messages")
    } else if !same_entries(core, plain) {
        Ok("entries")
    } else {
        Ok("")
    }
}

//! What a further entry decides.
ghost use Rattle.std.specs.Prelude.{◌≡◌, Some, List, ℕ};
ghost use Rattle.upi_model.specs.Places;
ghost use Rattle.upi_model.specs.Dues;
ghost use Rattle.upi_replay.specs.Rows.{openings};

use crate::rows::Row;
use crate::rules::{accounts_agree, asked, due_answer, has_txn, refusal, same_leg};
use upi_base::{Answer, Code, Leg, Moment, Outcome, PspName, SetupLine, TxnId};
use upi_model::{AuthWord, Decision, Event, LegEnd, Opening, Said};

pub(crate) fn opens_said(
    setup: &[SetupLine],
    rows: &[Row],
    now: Moment,
    psp: &PspName,
    what: &Said,
) -> Option<Opening>
    ensures { result ≡ Places.opens_said setup.now (openings rows.now) now psp.now what.now }
{
    match what {
        Said::Pay(r) => {
            if !has_txn(rows, &r.txn) && refusal(setup, rows, psp.bytes(), r).is_none() {
                Some(Opening {
                    terms: r.copy(),
                    at: now,
                })
            } else {
                None
            }
        }
        Said::Auth(_) => None,
        Said::Check(_) => None,
        Said::Confirmed(_) => None,
        Said::Foreign => None,
    }
}

/// The transaction that an event opens.
pub(crate) fn opens(
    setup: &[SetupLine],
    rows: &[Row],
    closed: bool,
    event: &Event,
    now: Moment,
) -> Option<Opening>
    ensures { result ≡ Places.opens setup.now (openings rows.now) closed event.now now }
{
    if closed {
        return None;
    }
    match event {
        Event::Heard { psp, what } => opens_said(setup, rows, now, psp, what),
        _ => None,
    }
}

fn answers_in_time(
    setup: &[SetupLine],
    opening: &Opening,
    now: Moment,
    psp: &PspName,
    word: &AuthWord,
) -> bool
    ensures { result ≡ Places.answers_in_time setup.now opening.now now psp.now word.now }
{
    word.txn == opening.terms.txn
        && psp.bytes() == asked(&opening.terms)
        && accounts_agree(setup, &opening.terms, word)
        && word.amount == opening.terms.amount
        && now.get() < due_answer(opening)
}

fn yes_or_no(yes: bool, now: Moment) -> Decision
    ensures { result ≡ Places.yes_or_no yes now }
{
    if yes {
        Decision::Yes(now)
    } else {
        Decision::No
    }
}

fn decides_said(
    setup: &[SetupLine],
    opening: &Opening,
    now: Moment,
    psp: &PspName,
    what: &Said,
) -> Option<Decision>
    ensures { result ≡ Places.decides_said setup.now opening.now now psp.now what.now }
{
    match what {
        Said::Auth(word) => {
            if answers_in_time(setup, opening, now, psp, word) {
                Some(yes_or_no(word.yes, now))
            } else {
                None
            }
        }
        Said::Pay(_) => None,
        Said::Check(_) => None,
        Said::Confirmed(_) => None,
        Said::Foreign => None,
    }
}

/// How an event ends the question of a transaction.
pub(crate) fn decides(
    setup: &[SetupLine],
    closed: bool,
    opening: &Opening,
    event: &Event,
    now: Moment,
) -> Option<Decision>
    ensures { result ≡ Places.decides setup.now closed (Some opening.now) event.now now }
{
    if closed {
        return None;
    }
    match event {
        Event::Heard { psp, what } => decides_said(setup, opening, now, psp, what),
        Event::Late(txn) => {
            if *txn == opening.terms.txn && due_answer(opening) <= now.get() {
                Some(Decision::Late)
            } else {
                None
            }
        }
        Event::Close => Some(Decision::Close),
        _ => None,
    }
}

fn end_told(now: Moment, answer: Answer) -> LegEnd
    ensures { result ≡ Places.end_told now answer }
{
    match answer {
        Answer::Posted => LegEnd::Posted(now),
        Answer::Declined(code) => LegEnd::Declined(code),
    }
}

/// A bank's answer for the leg of the transaction.
fn tells(txn: &TxnId, leg: Leg, event: &Event) -> Option<Answer>
    ensures { result ≡ Places.tells txn.now leg event.now }
{
    match event {
        Event::Answered {
            txn: given,
            leg: of,
            answer,
        } => {
            if given == txn && same_leg(*of, leg) {
                Some(*answer)
            } else {
                None
            }
        }
        _ => None,
    }
}

fn ends_on(txn: &TxnId, leg: Leg, event: &Event, now: Moment, due: u64) -> Option<LegEnd>
    ensures { result ≡ Places.ends_on txn.now leg event.now now due }
{
    match event {
        Event::Close => Some(LegEnd::Close),
        Event::Late(given) => {
            if given == txn && due <= now.get() {
                Some(LegEnd::Late)
            } else {
                None
            }
        }
        _ => match tells(txn, leg, event) {
            None => None,
            Some(answer) => Some(end_told(now, answer)),
        },
    }
}

/// How an event ends a leg that is due at a moment.
pub(crate) fn ends(
    txn: &TxnId,
    leg: Leg,
    closed: bool,
    due: Option<u64>,
    event: &Event,
    now: Moment,
) -> Option<LegEnd>
    ensures { result ≡ Places.ends txn.now leg closed due event.now now }
{
    if closed {
        return None;
    }
    match due {
        None => None,
        Some(due) => ends_on(txn, leg, event, now, due),
    }
}

fn reverses_on(txn: &TxnId, event: &Event, now: Moment) -> Option<Moment>
    ensures { result ≡ Places.reverses_on txn.now event.now now }
{
    match event {
        Event::Close => Some(now),
        _ => match tells(txn, Leg::Reversal, event) {
            None => None,
            Some(_) => Some(now),
        },
    }
}

/// When an event ends a reversal that is wanted for this cause.
pub(crate) fn reverses(
    txn: &TxnId,
    closed: bool,
    cause: Option<Code>,
    event: &Event,
    now: Moment,
) -> Option<Moment>
    ensures { result ≡ Places.reverses txn.now closed cause event.now now }
{
    if closed {
        return None;
    }
    match cause {
        None => None,
        Some(_) => reverses_on(txn, event, now),
    }
}

fn acknowledges_said(opening: &Opening, psp: &PspName, what: &Said) -> bool
    ensures { result ≡ Dues.acknowledges_said opening.now psp.now what.now }
{
    match what {
        Said::Confirmed(txn) => {
            *txn == opening.terms.txn && psp.bytes() == asked(&opening.terms)
        }
        _ => false,
    }
}

fn acknowledges_on(opening: &Opening, event: &Event) -> bool
    ensures { result ≡ Dues.acknowledges_on opening.now event.now }
{
    match event {
        Event::Heard { psp, what } => acknowledges_said(opening, psp, what),
        _ => false,
    }
}

/// When an event acknowledges an outcome.
pub(crate) fn acknowledges(
    opening: &Opening,
    outcome: Option<Outcome>,
    event: &Event,
    now: Moment,
) -> Option<Moment>
    ensures { result ≡ Dues.acknowledges (Some opening.now) outcome event.now now }
{
    if outcome.is_some() && acknowledges_on(opening, event) {
        Some(now)
    } else {
        None
    }
}

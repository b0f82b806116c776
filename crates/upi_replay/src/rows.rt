//! What was found of each transaction.
ghost use Rattle.std.specs.Prelude.{◌≡◌, ◌+◌, is_some, Some};
ghost use Rattle.std.specs.Option.{option_copied};
ghost use Rattle.std.specs.List.{list_any};
ghost use Rattle.upi_model.specs.Outcomes;
ghost use Rattle.upi_model.specs.Places;
ghost use Rattle.upi_replay.specs.Rows;

use crate::rules::same_leg;
use upi_base::{Answer, Code, DUE_SECONDS, Kind, Leg, Moment, Outcome, TxnId};
use upi_model::{Decision, LegEnd, Opening};

/// A transaction: its opening, what decided it so far, and how its legs were answered.
#[derive(Drop)]
pub struct Row {
    pub opening: Opening,
    pub decision: Option<Decision>,
    pub debit: Option<LegEnd>,
    pub credit: Option<LegEnd>,
    pub reversal: Option<Moment>,
    pub debited: Option<Answer>,
    pub credited: Option<Answer>,
    pub reversed: Option<Answer>,
    pub acknowledged: Option<Moment>,
}

/// A leg whose order arrived before its transaction was opened.
#[derive(Drop)]
pub struct Stray {
    pub txn: TxnId,
    pub its_leg: Leg,
}

/// The row of a transaction.
pub fn row_at<'a>(rows: &'a [Row], txn: &TxnId) -> Option<&'a Row>
    ensures { option_copied result ≡ Rows.row_at rows.now txn.now }
{
    for row in rows {
        if row.opening.terms.txn == *txn {
            return Some(row);
        }
    }
    None
}

/// Whether an order for this leg arrived before its transaction was opened.
fn is_strayed(strays: &[Stray], txn: &TxnId, leg: Leg) -> bool
    ensures { result ≡ list_any (Rows.is_stray txn.now leg) strays.now }
{
    for stray in strays {
        if stray.txn == *txn && same_leg(stray.its_leg, leg) {
            return true;
        }
    }
    false
}

/// How a leg was answered that arrived before its transaction was opened.
pub(crate) fn stray_answer(strays: &[Stray], txn: &TxnId, leg: Leg) -> Option<Answer>
    ensures { result ≡ Rows.stray_answer strays.now txn.now leg }
{
    if is_strayed(strays, txn, leg) {
        Some(Answer::Declined(Code::Nothing))
    } else {
        None
    }
}

/// The code of an answer that didn't come in time.
pub(crate) fn late_code(kind: Kind) -> Code
    ensures { result ≡ Outcomes.late_code kind }
{
    match kind {
        Kind::Pay => Code::AuthLate,
        Kind::Collect => Code::Expired,
    }
}

fn credit_outcome(credit: Option<LegEnd>, reversed: bool) -> Option<Outcome>
    ensures { result ≡ Outcomes.credit_outcome credit reversed }
{
    match credit {
        None => None,
        Some(LegEnd::Posted(_)) => Some(Outcome::Success),
        Some(LegEnd::Declined(code)) => {
            if reversed {
                Some(Outcome::Failure(code))
            } else {
                None
            }
        }
        Some(LegEnd::Late) => Some(Outcome::Deemed),
        Some(LegEnd::Close) => Some(Outcome::Deemed),
    }
}

fn debit_outcome(debit: Option<LegEnd>, credit: Option<LegEnd>, reversed: bool) -> Option<Outcome>
    ensures { result ≡ Outcomes.debit_outcome debit credit reversed }
{
    match debit {
        None => None,
        Some(LegEnd::Posted(_)) => credit_outcome(credit, reversed),
        Some(LegEnd::Declined(code)) => Some(Outcome::Failure(code)),
        Some(LegEnd::Late) => {
            if reversed {
                Some(Outcome::Failure(Code::DebitLate))
            } else {
                None
            }
        }
        Some(LegEnd::Close) => Some(Outcome::Failure(Code::Closed)),
    }
}

/// The outcome that follows from what decided a transaction.
pub(crate) fn outcome_from(
    opening: &Opening,
    decision: Option<Decision>,
    debit: Option<LegEnd>,
    credit: Option<LegEnd>,
    reversed: bool,
) -> Option<Outcome>
    ensures { result ≡ Outcomes.outcome_by (Some opening.now) decision debit credit reversed }
{
    match decision {
        None => None,
        Some(Decision::Yes(_)) => debit_outcome(debit, credit, reversed),
        Some(Decision::No) => Some(Outcome::Failure(Code::Declined)),
        Some(Decision::Late) => Some(Outcome::Failure(late_code(opening.terms.kind))),
        Some(Decision::Close) => Some(Outcome::Failure(Code::Closed)),
    }
}

/// The due moment after a moment.
fn due_after(at: &Moment) -> u64
    ensures { result ≡ at.now + DUE_SECONDS }
{
    at.get() + DUE_SECONDS
}

/// When the debit is due, by the decision.
pub(crate) fn due_debit(decision: Option<Decision>) -> Option<u64>
    ensures { result ≡ Places.due_debit decision }
{
    match &decision {
        Some(Decision::Yes(at)) => Some(due_after(at)),
        _ => None,
    }
}

/// When the credit is due, by the debit.
pub(crate) fn due_credit(debit: Option<LegEnd>) -> Option<u64>
    ensures { result ≡ Places.due_credit debit }
{
    match &debit {
        Some(LegEnd::Posted(at)) => Some(due_after(at)),
        _ => None,
    }
}

/// Why a reversal is wanted, if it is.
pub(crate) fn cause_from(debit: Option<LegEnd>, credit: Option<LegEnd>) -> Option<Code>
    ensures { result ≡ Places.cause_by debit credit }
{
    match debit {
        Some(LegEnd::Late) => Some(Code::DebitLate),
        _ => declined(credit),
    }
}

fn declined(credit: Option<LegEnd>) -> Option<Code>
    ensures { result ≡ Rows.declined_code credit }
{
    match credit {
        Some(LegEnd::Declined(code)) => Some(code),
        _ => None,
    }
}

impl Row {
    /// The row of a transaction that has just opened. Legs that arrived before are answered.
    pub(crate) fn new(opening: Opening, strays: &[Stray]) -> Row
        ensures { result ≡ Rows.new_row strays.now opening }
    {
        Row {
            decision: None,
            debit: None,
            credit: None,
            reversal: None,
            debited: stray_answer(strays, &opening.terms.txn, Leg::Debit),
            credited: stray_answer(strays, &opening.terms.txn, Leg::Credit),
            reversed: stray_answer(strays, &opening.terms.txn, Leg::Reversal),
            acknowledged: None,
            opening,
        }
    }

    /// The same row.
    pub(crate) fn copy(&self) -> Row
        ensures { result ≡ self.now }
    {
        Row {
            opening: self.opening.copy(),
            decision: self.decision,
            debit: self.debit,
            credit: self.credit,
            reversal: self.reversal,
            debited: self.debited,
            credited: self.credited,
            reversed: self.reversed,
            acknowledged: self.acknowledged,
        }
    }

    /// The outcome, if there is one.
    pub fn outcome(&self) -> Option<Outcome>
        ensures { result ≡ Rows.row_outcome self.now }
    {
        outcome_from(
            &self.opening,
            self.decision,
            self.debit,
            self.credit,
            self.reversal.is_some(),
        )
    }
}

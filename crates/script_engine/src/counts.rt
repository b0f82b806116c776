//! How many transactions ended in each way.
ghost use Rattle.std.specs.Prelude.{◌≡◌, count_by};
ghost use Rattle.upi_words.specs.Prelude.{TxnRow};
ghost use Rattle.upi_model.specs.Settlement.{is_deemed, is_unmatched};
ghost use Rattle.script_engine.specs.End.{is_success, is_failure};

use upi_base::{Outcome, TxnRow};

fn is_success(outcome: Option<Outcome>) -> bool
    ensures { result ≡ is_success outcome }
{
    match outcome {
        Some(Outcome::Success) => true,
        Some(Outcome::Failure(_code)) => false,
        Some(Outcome::Deemed) => false,
        None => false,
    }
}

fn is_failure(outcome: Option<Outcome>) -> bool
    ensures { result ≡ is_failure outcome }
{
    match outcome {
        Some(Outcome::Success) => false,
        Some(Outcome::Failure(_code)) => true,
        Some(Outcome::Deemed) => false,
        None => false,
    }
}

fn is_deemed(outcome: Option<Outcome>) -> bool
    ensures { result ≡ is_deemed outcome }
{
    match outcome {
        Some(Outcome::Success) => false,
        Some(Outcome::Failure(_code)) => false,
        Some(Outcome::Deemed) => true,
        None => false,
    }
}

fn is_unmatched(row: &TxnRow) -> bool
    ensures { result ≡ is_unmatched row.now }
{
    is_deemed(row.outcome) && !row.credit_moved
}

/// How many ended in SUCCESS.
pub(crate) fn count_success(rows: &[TxnRow]) -> u64
    ensures { result ≡ count_by (λ (r : TxnRow). is_success r.outcome) rows.now }
{
    rows.iter().filter(|row| is_success(row.outcome)).count() as u64
}

/// How many ended in FAILURE.
pub(crate) fn count_failure(rows: &[TxnRow]) -> u64
    ensures { result ≡ count_by (λ (r : TxnRow). is_failure r.outcome) rows.now }
{
    rows.iter().filter(|row| is_failure(row.outcome)).count() as u64
}

/// How many ended in DEEMED.
pub(crate) fn count_deemed(rows: &[TxnRow]) -> u64
    ensures { result ≡ count_by (λ (r : TxnRow). is_deemed r.outcome) rows.now }
{
    rows.iter().filter(|row| is_deemed(row.outcome)).count() as u64
}

/// How many have a reconciliation item.
pub(crate) fn count_items(rows: &[TxnRow]) -> u64
    ensures { result ≡ count_by is_unmatched rows.now }
{
    rows.iter().filter(|row| is_unmatched(row)).count() as u64
}

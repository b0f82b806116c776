//! The money in flight.
ghost use Rattle.std.specs.Prelude.{◌≡◌, ◌≤◌, ℕ, true};
ghost use Rattle.std.specs.List.{AllByRecursion, sum_by};
ghost use Rattle.upi_base.specs.Setup.{IsNamed, is_setup, line_accounts};
ghost use Rattle.upi_words.specs.Prelude.{Account, Setup, History, Legal, balance, flight};
ghost use Rattle.bank_shards.specs.Banks.{StandAll};
ghost use Rattle.bank_shards.specs.Flights.{FlightMoves};
ghost use Rattle.bank_shards.specs.Histories.{orders_in};

use bank_shards::BankShards;
use upi_base::{Leg, Paise, SetupLine};

/// The money in flight after a leg moved so much, if one did. It is never near the greatest number.
pub(crate) fn flight_after(flight: u128, moved: Option<(Leg, Paise)>) -> u128
    ensures { (now : ℕ) → now ≤ 65_536_000_000_000 → FlightMoves moved flight now → result ≡ now }
{
    match moved {
        None => flight,
        Some((Leg::Debit, amount)) => flight.saturating_add(u128::from(amount.get())),
        Some((Leg::Credit, amount)) => flight.saturating_sub(u128::from(amount.get())),
        Some((Leg::Reversal, amount)) => flight.saturating_sub(u128::from(amount.get())),
    }
}

// What the account of a line opened with and what it has; nothing where the line gives none.
fn sums_of(line: &SetupLine, banks: &BankShards) -> (u64, u64)
    ensures opening { result.0 ≡ sum_by (λ (a : Account). a.opening) (line_accounts line.now) }
    ensures balance { (S : Setup) (h : History) → Legal S h → StandAll S (orders_in S h) banks.now → AllByRecursion (IsNamed S) (line_accounts line.now) → result.1 ≡ sum_by (λ (a : Account). balance S a h) (line_accounts line.now) }
{
    match line {
        SetupLine::Account {
            ac,
            opening,
            no_debit: _no_debit,
            no_credit: _no_credit,
        } => (opening.get(), banks.balance(ac).unwrap_or(0)),
        _ => (0, 0),
    }
}

/// The money in flight: what the accounts opened with, less what they have.
pub(crate) fn left(lines: &[SetupLine], banks: &BankShards) -> u128
    ensures { (h : History) → is_setup lines.now ≡ true → Legal lines.now h → StandAll lines.now (orders_in lines.now h) banks.now → result ≡ flight lines.now h }
{
    let mut opened: u128 = 0;
    let mut held: u128 = 0;
    for at in 0..lines.len() {
        let (opening, balance) = sums_of(&lines[at], banks);
        opened += u128::from(opening);
        held += u128::from(balance);
    }
    opened.saturating_sub(held)
}

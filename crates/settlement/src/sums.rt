//! Sums over the items of a bank, in paise.
ghost use Rattle.std.specs.Prelude.{◌≡◌, ◌≤◌, ◌<◌, ◌^◌};
ghost use Rattle.std.specs.List.{sum_by};
ghost use Rattle.upi_model.specs.Settlement as Spec;

use upi_base::{Item, Side};

// What a bank received by an item.
fn received(item: &Item) -> u64
    ensures sum { result ≡ Spec.received_in item.now }
    ensures bound { result ≤ 1_000_000_000_000_000 }
{
    match item.side {
        Side::Paid => 0,
        Side::Received => item.amount.get(),
    }
}

// What a bank paid by an item.
fn paid(item: &Item) -> u64
    ensures sum { result ≡ Spec.paid_in item.now }
    ensures bound { result ≤ 1_000_000_000_000_000 }
{
    match item.side {
        Side::Paid => item.amount.get(),
        Side::Received => 0,
    }
}

// What a bank received by all its items.
fn total_received(items: &[Item]) -> u128
    ensures sum { result ≡ sum_by Spec.received_in items.now }
    ensures bound { result < 2 ^ 120 }
{
    let mut sum: u128 = 0;
    for item in items {
        sum += u128::from(received(item));
    }
    sum
}

// What a bank paid by all its items.
fn total_paid(items: &[Item]) -> u128
    ensures sum { result ≡ sum_by Spec.paid_in items.now }
    ensures bound { result < 2 ^ 120 }
{
    let mut sum: u128 = 0;
    for item in items {
        sum += u128::from(paid(item));
    }
    sum
}

/// What a bank received less what it paid, by its items.
pub(crate) fn net_of(items: &[Item]) -> i128
    ensures { result ≡ Spec.net_of items.now }
{
    total_received(items) as i128 - total_paid(items) as i128
}

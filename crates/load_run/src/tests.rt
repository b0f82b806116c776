use super::*;
use load_generator::MAX_COUNT;
use std::alloc::Global;
use std::hash::RandomState;
use std::test::Fail;
use upi_base::Summary;

// Whether each of so many payments has ended, in one of three ways; whether only a deemed one has an
// item, and money is in flight exactly where there is an item.
fn adds_up(summary: &Summary, count: u64) -> bool {
    let told = summary.success.saturating_add(summary.failure);
    let ended = told.saturating_add(summary.deemed);
    ended == count
        && summary.items <= summary.deemed
        && (summary.flight == 0) == (summary.items == 0)
}

// The line of a load of 1,000 payments from the seed 1, if they add up.
fn line_of_thousand(alloc: Global, hashes: RandomState) -> Option<Vec<u8>> {
    let summary = run_load(alloc, hashes, 1000, 1).ok()?;
    let mut line = Vec::new(alloc);
    write_summary(1000, 1, &summary, &mut line).ok()?;
    if adds_up(&summary, 1000) {
        Some(line)
    } else {
        None
    }
}

// Whether each payment of the largest load from the seed 1 ends. None is refused: no payer is a payee,
// all addresses are known, and no shard of transactions has to open more than 3,137.
fn largest_adds_up(alloc: Global, hashes: RandomState) -> bool {
    match run_load(alloc, hashes, MAX_COUNT, 1) {
        Ok(summary) => adds_up(&summary, u64::from(MAX_COUNT)),
        Err(_fault) => false,
    }
}

// Names are hashed with other keys the second time.
#[test]
fn a_load_ends_twice_as_one(rt: HostRuntime) -> Result<(), Fail> {
    let alloc = rt.alloc();
    let first = line_of_thousand(alloc, RandomState::new(&rt)?);
    let second = line_of_thousand(alloc, RandomState::new(&rt)?);
    assert!(rt; first.is_some());
    assert!(rt; first == second);
    Ok(())
}

#[test]
fn the_largest_load_ends(rt: HostRuntime) -> Result<(), Fail> {
    let hashes = RandomState::new(&rt)?;
    assert!(rt; largest_adds_up(rt.alloc(), hashes));
    Ok(())
}

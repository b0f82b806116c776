use super::*;
use std::process::Abort;
use std::rt::Clock;
use std::sync::Wait;
use std::test::Fail;
use std::thread::Threads;

// As many threads append 10,000 notes each, and each has its own in the history, in order.
fn all_in_order<R: Threads + Wait + Sync + Clock + Abort>(
    rt: &R,
    alloc: std::alloc::Global,
    threads: u32,
) -> Result<(), Fail> {
    let load = shared::load(rt, alloc, threads, 10_000).ok_or("memory and a clock")?;
    assert!(rt; load.notes.len() as u64 == 10_000 * u64::from(threads));
    for thread in 0..threads {
        assert!(rt; are_in_order(&load.notes, thread, 10_000));
    }
    Ok(())
}

#[test]
fn of_two_threads(rt: HostRuntime) -> Result<(), Fail> {
    all_in_order(&rt, rt.alloc(), 2)
}

#[test]
fn of_four_threads(rt: HostRuntime) -> Result<(), Fail> {
    all_in_order(&rt, rt.alloc(), 4)
}

#[test]
fn of_sixteen_threads(rt: HostRuntime) -> Result<(), Fail> {
    all_in_order(&rt, rt.alloc(), 16)
}

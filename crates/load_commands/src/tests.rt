use super::*;
use std::alloc::Global;
use std::hash::RandomState;
use std::test::Fail;
use upi_io::{MemSink, Status};

// The line that sums up the load of one payment from seed 1, worked out by hand.
const SUMMED_UP: &[u8] =
    b"LOAD 1 1 SUCCESS 1 FAILURE 0 DEEMED 0 ITEMS 0 FLIGHT 0.00 ENTRIES 14 MESSAGES 10\n";

// How a load of one payment from seed 1 ends, where the write of that number fails, counted from 1, and
// whether the line of it, or nothing, was written.
fn loaded(
    alloc: Global,
    hashes: RandomState,
    bad_write: u64,
    written: &[u8],
) -> Result<(Status, bool), Fail> {
    let bad_writes = Vec::from_slice(alloc, &[bad_write])?;
    let mut sink = MemSink::new(alloc, 1000, 40, bad_writes)?;
    let status = run_load_summary(alloc, hashes, 1, 1, &mut sink);
    Ok((status, sink.taken() == written))
}

#[test]
fn a_load_of_one_payment(rt: HostRuntime) -> Result<(), Fail> {
    let alloc = rt.alloc();
    let hashes = RandomState::new(&rt)?;
    assert!(rt; loaded(alloc, hashes, 0, SUMMED_UP)? == (Status::Done, true));
    assert!(rt; loaded(alloc, hashes, 1, b"")? == (Status::WriteFault, true));
    assert!(rt; loaded(alloc, hashes, 3, &SUMMED_UP[..80])? == (Status::WriteFault, true));
    Ok(())
}

#[test]
fn a_generated_load(rt: HostRuntime) -> Result<(), Fail> {
    let alloc = rt.alloc();
    let mut sink = MemSink::new(alloc, 10_000, 4096, Vec::new(alloc))?;
    assert!(rt; run_generate(alloc, 1, 1, &mut sink) == Status::Done);
    assert!(rt;
        sink.taken()
            .starts_with(b"START 2024-01-01T05:30:00+05:30\nBANK AAAA\n")
    );
    assert!(rt; sink.taken().iter().filter(|c| **c == b'\n').count() == 91);
    let mut full = MemSink::new(alloc, 20, 4096, Vec::new(alloc))?;
    assert!(rt; run_generate(alloc, 1, 1, &mut full) == Status::WriteFault);
    assert!(rt; full.taken() == b"START 2024-01-01T05:".as_slice());
    Ok(())
}

//! Loads, written and run.
ghost use Rattle.std.specs.Prelude.{◌≡◌, ◌≤◌};
ghost use Rattle.upi_io.specs.Faults.{Rose};
ghost use Rattle.load_generator.specs.declared.text.TheConstants.{MAX_COUNT, MAX_SEED};
ghost use Rattle.load_run.specs.Summaries.{summary_text};
ghost use Rattle.load_commands.specs.Outputs.{Gives, Generates, Loads};

use crate::output::put;
use load_generator::{MAX_COUNT, MAX_SEED, generate};
use load_run::{LoadFault, run_load, write_summary};
use std::alloc::Global;
use std::hash::RandomState;
use upi_base::Summary;
use upi_io::{Sink, Status};

/// Writes the text of a load of so many payments, drawn from a seed. All of it is made before any of it
/// is written.
///
/// Conditions: at most 50,000 payments, and a seed of at most 2,147,483,647. `WriteFault` comes only
/// where the sink failed; a front of the text is written then. `NoMemory` may come at any time before
/// the first byte is written.
pub fn run_generate<K: Sink>(alloc: Global, count: u32, seed: u32, sink: &mut K) -> Status
    requires count { count ≤ MAX_COUNT }
    requires seed { seed ≤ MAX_SEED }
    ensures generates { Generates count seed (K.taken sink.old) (K.taken sink.new) result }
    ensures write { result ≡ Status.WriteFault → Rose (K.faults sink.old) (K.faults sink.new) }
    ensures writes { K.faults sink.old ≤ K.faults sink.new }
{
    let mut text = Vec::new(alloc);
    match generate(alloc, count, seed, &mut text) {
        Ok(()) => put(&text, sink),
        Err(_no_memory) => Status::NoMemory,
    }
}

// Writes the line that sums up a load.
fn put_summary<K: Sink>(
    alloc: Global,
    count: u32,
    seed: u32,
    summary: &Summary,
    sink: &mut K,
) -> Status
    ensures gives { Gives (summary_text count seed summary.now) (K.taken sink.old) (K.taken sink.new) result }
    ensures write { result ≡ Status.WriteFault → Rose (K.faults sink.old) (K.faults sink.new) }
    ensures writes { K.faults sink.old ≤ K.faults sink.new }
{
    let mut text = Vec::new(alloc);
    match write_summary(count, seed, summary, &mut text) {
        Ok(()) => put(&text, sink),
        Err(_no_memory) => Status::NoMemory,
    }
}

/// Runs a load of so many payments, drawn from a seed, and writes the line that sums it up. Names of
/// transactions are hashed with `hashes`.
///
/// Conditions: at most 50,000 payments, and a seed of at most 2,147,483,647. `BadLine` comes exactly
/// where a script refuses a line of the load, at the first such line; none is known. `WriteFault` comes
/// only where the sink failed; a front of the line is written then. `NoMemory` may come at any time
/// before the first byte is written.
pub fn run_load_summary<K: Sink>(
    alloc: Global,
    hashes: RandomState,
    count: u32,
    seed: u32,
    sink: &mut K,
) -> Status
    requires count { count ≤ MAX_COUNT }
    requires seed { seed ≤ MAX_SEED }
    ensures loads { Loads count seed (K.taken sink.old) (K.taken sink.new) result }
    ensures write { result ≡ Status.WriteFault → Rose (K.faults sink.old) (K.faults sink.new) }
    ensures writes { K.faults sink.old ≤ K.faults sink.new }
{
    match run_load(alloc, hashes, count, seed) {
        Ok(summary) => put_summary(alloc, count, seed, &summary, sink),
        Err(LoadFault::Refused { line, field, why }) => Status::BadLine { line, field, why },
        Err(LoadFault::NoMemory) => Status::NoMemory,
    }
}

//! What one worker has beside its seat, and the two halves of a turn: a job is taken up, and run.
ghost use Rattle.std.specs.Prelude.{◌≡◌, ◌<◌, ℕ, ◌+◌, [], OnOk, IfOk, IfSome, IfNone, length};
ghost use Rattle.crossbeam_queue.specs.Passes.{view, IsPassOf};
ghost use Rattle.part_sums.specs.Totals.{total};
ghost use Rattle.worker_pool.specs.Jobs.{SameJobs};
ghost use Rattle.worker_pool.specs.calls.Work.{stand, RanOne, TookUp};

use crate::floor::Floor;
use crate::hand::{Port, Puts, Queue, Takes};
use crate::job::Job;
use crate::pool::Tally;
use std::alloc::Global;
use std::sync::Wait;
use std::thread::Threads;
use upi_base::NoMemory;
use upi_io::Gate;

/// A pass of the queue, the jobs that the queue did not take, and how many jobs were put and taken.
#[derive(Drop)]
pub struct Desk<J> {
    pub port: Port<J>,
    pub own: Vec<J>,
    pub tally: Tally,
}

impl<J> Desk<J> {
    /// A desk with this pass, at which so many jobs were put already.
    pub fn new(alloc: Global, port: Port<J>, put: u64) -> Desk<J>
        ensures port { result.port ≡ port }
        ensures own { result.own.items ≡ [] }
        ensures tally { (result.tally.put ≡ put) × (result.tally.taken ≡ 0) }
    {
        Desk {
            port,
            own: Vec::new(alloc),
            tally: Tally { put, taken: 0 },
        }
    }
}

/// Puts each job into the queue. Those that come back, since it is full, are kept.
pub fn offer<J: Drop, R: Wait>(
    rt: &R,
    queue: &Queue<J>,
    port: &mut Port<J>,
    own: &mut Vec<J>,
    jobs: Vec<J>,
) -> Result<(), NoMemory>
    requires port { IsPassOf queue.now port.old × (0 < (view port.old).parts) }
    ensures port { IsPassOf queue.now port.new × ((view port.new).parts ≡ (view port.old).parts) × ((view port.new).taken ≡ (view port.old).taken) }
    ensures put { OnOk result ((h : J → ℕ) → total h (view port.new).put + total h own.new.items ≡ total h (view port.old).put + total h own.old.items + total h jobs.items) }
{
    for job in jobs {
        match queue.push_as::<Puts, R>(rt, port, job) {
            Ok(()) => {}
            Err(job) => {
                if own.push(job).is_err() {
                    return Err(NoMemory);
                }
            }
        }
    }
    Ok(())
}

/// A job that was kept, or one from the queue. `None` where nothing is kept and the queue was empty
/// at one moment.
pub fn next_job<J: Drop, R: Wait>(rt: &R, queue: &Queue<J>, desk: &mut Desk<J>) -> Option<J>
    requires port { IsPassOf queue.now desk.old.port × (0 < (view desk.old.port).parts) }
    ensures port { IsPassOf queue.now desk.new.port × ((view desk.new.port).parts ≡ (view desk.old.port).parts) }
    ensures some { IfSome result (λ job. TookUp (stand desk.old) job (stand desk.new)) }
    ensures none { IfNone result ((stand desk.new ≡ stand desk.old) × (desk.old.own.items ≡ [])) }
    ensures all { IfNone result ((view desk.old.port).parts ≡ 1024 → SameJobs (view desk.old.port).put (view desk.old.port).taken) }
{
    if let Some(job) = desk.own.pop() {
        return Some(job);
    }
    let job = queue.pop_as::<Takes, R>(rt, &mut desk.port)?;
    Some(job)
}

/// Runs a job, counts those that it added, and puts them. The answer is how many these are.
pub fn run_one<R: Threads + Wait + Sync, J: Job + Drop, G: Gate>(
    rt: &R,
    alloc: Global,
    queue: &Queue<J>,
    floor: &Floor,
    shared: &J::Shared,
    gate: &G,
    seat: &mut J::Seat,
    desk: &mut Desk<J>,
    job: J,
) -> Result<u64, NoMemory>
    requires port { IsPassOf queue.now desk.old.port × (0 < (view desk.old.port).parts) }
    ensures port { IsPassOf queue.now desk.new.port × ((view desk.new.port).parts ≡ (view desk.old.port).parts) }
    ensures ran { OnOk result (RanOne J.does seat.old (stand desk.old) job seat.new (stand desk.new)) }
{
    let mut next = Vec::new(alloc);
    job.run(rt, shared, seat, gate, &mut next)?;
    let added = next.len() as u64;
    floor.count(rt, added);
    offer(rt, queue, &mut desk.port, &mut desk.own, next)?;
    desk.tally.put = desk.tally.put.saturating_add(added);
    desk.tally.taken = desk.tally.taken.saturating_add(1);
    Ok(added)
}

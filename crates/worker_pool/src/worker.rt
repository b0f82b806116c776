//! The workers: what each does, and all at once.
ghost use Rattle.std.specs.Prelude.{◌≡◌, ◌<◌, ℕ, [], All, OnOk, length, slice_index_or};
ghost use Rattle.crossbeam_queue.specs.Passes.{view, IsPassOf};
ghost use Rattle.worker_pool.specs.Jobs.{SameJobs};
ghost use Rattle.worker_pool.specs.calls.Work.{stand, IsCount, Worked};
ghost use Rattle.worker_pool.specs.calls.Crew.{seat_of, IsFresh, IsBack, IsHome};

use crate::desk::{Desk, next_job, run_one};
use crate::floor::{Floor, Rest};
use crate::hand::Queue;
use crate::job::Job;
use std::alloc::Global;
use std::sync::Wait;
use std::thread;
use std::thread::Threads;
use upi_base::NoMemory;
use upi_io::Gate;

/// A seat with a desk.
#[derive(Drop)]
pub struct Worker<J, S> {
    pub seat: S,
    pub desk: Desk<J>,
    /// Whether it went on until each job was run.
    pub ended: bool,
}

/// Runs jobs until all are run, or the work is given up.
fn work<R: Threads + Wait + Sync, J: Job + Drop, G: Gate>(
    rt: &R,
    alloc: Global,
    queue: &Queue<J>,
    floor: &Floor,
    shared: &J::Shared,
    gate: &G,
    worker: &mut Worker<J, J::Seat>,
)
    requires fresh { IsFresh queue.now worker.old }
    ensures back { IsBack queue.now worker.new }
    ensures home { IsHome J.does worker.old.seat worker.new }
{
    let mut seen = floor.moves(rt);
    for _ in rt.forever() {
        let Some(job) = next_job(rt, queue, &mut worker.desk) else {
            match floor.rest(rt, seen) {
                Rest::Moved(moves) => {
                    seen = moves;
                    continue;
                }
                Rest::Over => {
                    worker.ended = true;
                    return;
                }
                Rest::Stopped => return,
            }
        };
        let seat = &mut worker.seat;
        let Ok(added) = run_one(
            rt,
            alloc,
            queue,
            floor,
            shared,
            gate,
            seat,
            &mut worker.desk,
            job,
        ) else {
            floor.stop(rt);
            return;
        };
        let Some(moves) = floor.ran(rt, added) else {
            return;
        };
        seen = moves;
    }
    unreachable!()
}

/// Lets all workers run at once, each on a thread of its own, and waits until all have ended.
pub fn work_all<R: Threads + Wait + Sync, J: Job + Drop + Send, G: Gate + Sync>(
    rt: &R,
    alloc: Global,
    queue: &Queue<J>,
    floor: &Floor,
    shared: &J::Shared,
    gate: &G,
    workers: &mut [Worker<J, J::Seat>],
)
where
    J::Shared: Sync,
    J::Seat: Send,
    requires fresh { All (IsFresh queue.now) workers.old }
    ensures back { All (IsBack queue.now) workers.new }
    ensures home { (i : ℕ) (d : _) → i < length workers.old → IsHome J.does (seat_of (slice_index_or workers.old i d)) (slice_index_or workers.new i d) }
    ensures long { length workers.new ≡ length workers.old }
{
    thread::for_each_mut(
        rt,
        workers,
        16,
        &|_: usize, worker: &mut Worker<J, J::Seat>|
            requires { IsFresh queue.now worker.now }
            ensures back { IsBack queue.entry.now worker.exit.now }
            ensures home { IsHome J.does worker.entry.now.seat worker.exit.now }
        { work(rt, alloc, queue, floor, shared, gate, worker) },
    );
}

/// Runs what is left when all others have come back, until nothing is.
pub fn finish<R: Threads + Wait + Sync, J: Job + Drop, G: Gate>(
    rt: &R,
    alloc: Global,
    queue: &Queue<J>,
    floor: &Floor,
    shared: &J::Shared,
    gate: &G,
    seat: &mut J::Seat,
    desk: &mut Desk<J>,
) -> Result<(), NoMemory>
    requires port { IsPassOf queue.now desk.old.port × ((view desk.old.port).parts ≡ 1024) }
    requires counts { IsCount (stand desk.old) }
    ensures ran { OnOk result (Worked J.does seat.old (stand desk.old) seat.new (stand desk.new)) }
    ensures all { OnOk result ((desk.new.own.items ≡ []) × SameJobs (view desk.new.port).put (view desk.new.port).taken) }
{
    for _ in rt.forever() {
        let Some(job) = next_job(rt, queue, desk) else {
            return Ok(());
        };
        run_one(rt, alloc, queue, floor, shared, gate, seat, desk, job)?;
    }
    unreachable!()
}

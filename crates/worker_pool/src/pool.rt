//! Jobs that workers run side by side, each once.
ghost use Rattle.std.specs.Prelude.{◌≡◌, ◌<◌, ◌≤◌, OnErr, IfOk, vec_len};
ghost use Rattle.worker_pool.specs.Jobs.{Drained};

use crate::crew::{rejoin, station};
use crate::desk::{Desk, offer};
use crate::floor::Floor;
use crate::hand::Queue;
use crate::job::Job;
use crate::worker::{finish, work_all};
use std::alloc::Global;
use std::mem;
use std::sync::Wait;
use std::thread::Threads;
use upi_base::NoMemory;
use upi_io::Gate;

/// The queue has room for the first jobs, and for so many at least.
const ROOM: usize = 1024;

/// How many jobs were put, and how many were taken and run. Both stay at 2^64 - 1.
#[derive(Clone, Copy, Debug, PartialEq, Eq)]
pub struct Tally {
    pub put: u64,
    pub taken: u64,
}

/// Runs the first jobs and all that they add, by one worker for each seat, 1 to 16, on a thread of
/// its own where one can be made. It may wait.
///
/// At `Ok` each job was run once by one seat, and put equals taken; no clause says by which seat. At
/// `NoMemory` all workers have ended, and the jobs that are left are dropped; the seats come back, but
/// nothing more is known of them.
pub fn drain<R: Threads + Wait + Sync, J: Job + Drop + Send, G: Gate + Sync>(
    rt: &R,
    alloc: Global,
    shared: &J::Shared,
    seats: &mut Vec<J::Seat>,
    first: Vec<J>,
    gate: &G,
) -> Result<Tally, NoMemory>
where
    J::Shared: Sync,
    J::Seat: Drop + Send,
    requires seats { (0 < vec_len seats.old) × (vec_len seats.old ≤ 16) }
    ensures ok { IfOk result (λ tally. Drained J.does seats.old.items first.items seats.new.items tally) }
    ensures even { IfOk result (λ tally. tally.put ≡ tally.taken) }
    ensures err { OnErr result (vec_len seats.new ≡ vec_len seats.old) }
{
    let count = seats.len();
    let put = first.len();
    let (queue, port) = Queue::<J>::ruled(alloc, ROOM.max(put))?;
    let mut desk = Desk::new(alloc, port, put as u64);
    offer(rt, &queue, &mut desk.port, &mut desk.own, first)?;
    let mut workers = Vec::with_capacity(alloc, count)?;
    let mut back = Vec::with_capacity(alloc, count)?;
    mem::swap(seats, &mut back);
    station(alloc, &queue, &mut desk, back, &mut workers);
    let floor = Floor::new(put.saturating_sub(desk.own.len()) as u64);
    work_all(
        rt,
        alloc,
        &queue,
        &floor,
        shared,
        gate,
        workers.as_mut_slice(),
    );
    let ended = rejoin(&queue, &mut desk, workers, seats);
    if !ended {
        return Err(NoMemory);
    }
    finish(
        rt,
        alloc,
        &queue,
        &floor,
        shared,
        gate,
        &mut seats[0],
        &mut desk,
    )?;
    Ok(desk.tally)
}

//! How workers get their places, and how they come back.
ghost use Rattle.std.specs.Prelude.{◌≡◌, ◌<◌, ◌≤◌, ◌+◌, List, [], All, length, map, true, ◌&&◌, vec_len, vec_capacity};
ghost use Rattle.std.specs.List.{AllZip};
ghost use Rattle.crossbeam_queue.specs.Passes.{view, IsPassOf};
ghost use Rattle.worker_pool.specs.calls.Work.{stand, IsCount};
ghost use Rattle.worker_pool.specs.calls.Crew.{seat_of, IsFresh, IsBack, IsHome, Joined, Gave, TookIn};

use crate::desk::Desk;
use crate::hand::{Cut, Queue};
use crate::job::Job;
use crate::worker::Worker;
use std::alloc::Global;

/// A worker for each seat. Each gets one part of the pass of the desk.
pub fn station<J: Job + Drop>(
    alloc: Global,
    queue: &Queue<J>,
    desk: &mut Desk<J>,
    seats: Vec<J::Seat>,
    workers: &mut Vec<Worker<J, J::Seat>>,
)
where
    J::Seat: Drop,
    requires port { IsPassOf queue.now desk.old.port }
    requires parts { length seats.items < (view desk.old.port).parts }
    requires room { (workers.old.items ≡ []) × (vec_len seats ≤ vec_capacity workers.old) }
    ensures port { IsPassOf queue.now desk.new.port × Gave (length seats.items) (stand desk.old) (stand desk.new) }
    ensures fresh { All (IsFresh queue.now) workers.new.items }
    ensures seats { map seat_of workers.new.items ≡ seats.items }
{
    for seat in seats {
        let port = queue.another::<Cut>(&mut desk.port);
        let desk = Desk::new(alloc, port, 0);
        workers.push_reserved(Worker {
            seat,
            desk,
            ended: false,
        });
    }
}

// Takes in what another desk did.
fn take_in<J: Drop>(queue: &Queue<J>, desk: &mut Desk<J>, other: Desk<J>)
    requires port { IsPassOf queue.now desk.old.port × IsPassOf queue.now other.port }
    requires parts { 0 < (view desk.old.port).parts }
    ensures port { IsPassOf queue.now desk.new.port }
    ensures both { TookIn (stand desk.old) (stand other) (stand desk.new) }
{
    let Desk { port, tally, .. } = other;
    queue.absorb::<Cut>(&mut desk.port, port);
    desk.tally.put = desk.tally.put.saturating_add(tally.put);
    desk.tally.taken = desk.tally.taken.saturating_add(tally.taken);
}

// Whether the one and the other.
fn both(one: bool, other: bool) -> bool
    ensures { result ≡ (one && other) }
{
    one && other
}

/// The workers come back: the desk takes in what they did, and their seats come in their order. The
/// answer is whether each went on until all was run.
pub fn rejoin<J: Job + Drop>(
    queue: &Queue<J>,
    desk: &mut Desk<J>,
    workers: Vec<Worker<J, J::Seat>>,
    seats: &mut Vec<J::Seat>,
) -> bool
where
    J::Seat: Drop,
    requires port { IsPassOf queue.now desk.old.port × (0 < (view desk.old.port).parts) }
    requires counts { IsCount (stand desk.old) }
    requires back { All (IsBack queue.now) workers.items }
    requires room { (seats.old.items ≡ []) × (vec_len workers ≤ vec_capacity seats.old) }
    ensures port { IsPassOf queue.now desk.new.port × ((view desk.new.port).parts ≡ (view desk.old.port).parts + length workers.items) }
    ensures seats { length seats.new.items ≡ length workers.items }
    ensures all { result ≡ true → (before : List J.Seat) → AllZip (IsHome J.does) before workers.items → Joined J.does before (stand desk.old) seats.new.items (stand desk.new) }
{
    let mut ended = true;
    for worker in workers {
        let Worker {
            seat,
            desk: other,
            ended: to_the_end,
        } = worker;
        take_in(queue, desk, other);
        ended = both(ended, to_the_end);
        seats.push_reserved(seat);
    }
    ended
}

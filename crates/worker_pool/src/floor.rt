//! Where workers that find no job wait. No clause speaks of it: what `drain` answers rests on the
//! queue alone.

use std::sync::{Condvar, Mutex, Wait};

// How many jobs were counted and not yet run; how often jobs came for others, or the work ended; and
// whether it is given up.
#[derive(Drop)]
struct Work {
    left: u64,
    moves: u64,
    stopped: bool,
}

/// The count of jobs that are left, and those who wait for a move.
#[derive(Drop)]
pub struct Floor {
    work: Mutex<Work>,
    moved: Condvar,
}

/// Why a wait is over.
pub enum Rest {
    /// There may be jobs again. The number is the moves so far.
    Moved(u64),
    /// Each job was run.
    Over,
    /// The work is given up.
    Stopped,
}

impl Floor {
    /// A floor with so many jobs.
    pub fn new(left: u64) -> Floor {
        Floor {
            work: Mutex::new(Work {
                left,
                moves: 0,
                stopped: false,
            }),
            moved: Condvar::new(),
        }
    }

    /// The moves so far, which a worker remembers before it looks for a job.
    pub fn moves<R: Wait>(&self, rt: &R) -> u64 {
        self.work.lock(rt).moves
    }

    /// Counts so many jobs, which are about to be put.
    ///
    /// A job is counted before it is put, and the job that added it is counted until it tells that
    /// it has run: so while a job is still to come, nobody finds that none is left.
    pub fn count<R: Wait>(&self, rt: &R, added: u64) {
        if added > 0 {
            let mut work = self.work.lock(rt);
            work.left = work.left.saturating_add(added);
        }
    }

    /// Tells that a job was run, and that the jobs that it added, so many, were counted and put. The
    /// answer is the moves so far, or `None` where the work is given up.
    ///
    /// Who added one job takes up one himself, so nobody is woken for it.
    pub fn ran<R: Wait>(&self, rt: &R, added: u64) -> Option<u64> {
        let mut work = self.work.lock(rt);
        work.left = work.left.saturating_sub(1);
        if added > 1 || work.left == 0 {
            work.moves = work.moves.wrapping_add(1);
            self.moved.notify_all();
        }
        if work.stopped { None } else { Some(work.moves) }
    }

    /// Gives the work up.
    pub fn stop<R: Wait>(&self, rt: &R) {
        let mut work = self.work.lock(rt);
        work.stopped = true;
        self.moved.notify_all();
    }

    /// Waits until there is a move since those that were seen, or the work is over.
    pub fn rest<R: Wait>(&self, rt: &R, seen: u64) -> Rest {
        let work = self.moved.wait_while(rt, self.work.lock(rt), |work| {
            work.moves == seen && work.left > 0 && !work.stopped
        });
        if work.stopped {
            return Rest::Stopped;
        }
        if work.left == 0 {
            return Rest::Over;
        }
        Rest::Moved(work.moves)
    }
}

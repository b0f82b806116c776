//! What workers run.
ghost use Rattle.std.specs.Prelude.{◌≡◌, [], OnOk};

use std::sync::Wait;
use std::thread::Threads;
use upi_base::NoMemory;
use upi_io::Gate;

/// A job, which a seat runs, and which may add further jobs.
pub trait Job: Sized {
    ghost use Rattle.std.specs.Prelude.{List};

    /// What all seats share.
    type Shared;

    /// What one worker has for itself.
    type Seat;

    /// What a run means: of the seat before it, the job, the jobs that it added, and the seat after
    /// it.
    ghost does: { Self.Seat → Self → List Self → Self.Seat → Type 0 };

    /// Runs the job. The jobs that it adds come into `next`, which is empty at the call.
    ///
    /// It may pass the gate, start threads and wait.
    fn run<R: Threads + Wait + Sync, G: Gate>(
        self,
        rt: &R,
        shared: &Self::Shared,
        seat: &mut Self::Seat,
        gate: &G,
        next: &mut Vec<Self>,
    ) -> Result<(), NoMemory>
        requires { next.old.items ≡ [] }
        ensures { OnOk result (does seat.old self next.new.items seat.new) };
}

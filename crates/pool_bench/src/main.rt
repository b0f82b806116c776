//! Lets seats of the worker pool run jobs that compute: three numbers, how many seats (1 to 16), how
//! many jobs, and how many steps a job makes. It says on standard output what the jobs came to, and
//! on standard error how many nanoseconds they took. `bench/pool.sh` times it.
#![tactic(auto)]

use anyhow::{Result, bail};
use std::alloc::Global;
use std::env;
use std::sync::Wait;
use std::thread::Threads;
use std::time::Instant;
use upi_base::NoMemory;
use upi_io::{Gate, OpenGate};
use worker_pool::{Job, drain};

/// A job that stirs its number for a while.
#[derive(Drop)]
struct Stirring {
    number: u64,
}

// A number after so many steps, each of which needs the one before.
fn stirred(from: u64, steps: u64) -> u64 {
    let mut number = from;
    for _ in 0..steps {
        number = number
            .wrapping_mul(6_364_136_223_846_793_005)
            .wrapping_add(1);
    }
    number
}

impl Job for Stirring {
    ghost use Rattle.std.specs.Prelude.{⊤};

    // How many steps a job makes.
    type Shared = u64;

    // The sum of the numbers of the seat's jobs.
    type Seat = u64;

    ghost does = { λ before job added after. ⊤ };

    fn run<R: Threads + Wait + Sync, G: Gate>(
        self,
        _rt: &R,
        shared: &u64,
        seat: &mut u64,
        _gate: &G,
        _next: &mut Vec<Stirring>,
    ) -> Result<(), NoMemory> {
        *seat = seat.wrapping_add(stirred(self.number, *shared));
        Ok(())
    }
}

// So many jobs, with the numbers from 0 on.
fn jobs_of(alloc: Global, count: u64) -> Result<Vec<Stirring>, NoMemory> {
    let mut jobs = Vec::new(alloc);
    for number in 0..count {
        jobs.push(Stirring { number })?;
    }
    Ok(jobs)
}

// The sum, from 0 again after 2^64 - 1.
fn sum_of(numbers: &[u64]) -> u64 {
    let mut sum = 0u64;
    for number in numbers {
        sum = sum.wrapping_add(*number);
    }
    sum
}

fn main(rt: HostRuntime) -> Result<()> {
    let alloc = rt.alloc();
    let mut words = env::args(&rt)?.skip(1);
    let (Some(seats), Some(jobs), Some(steps)) = (words.next(), words.next(), words.next()) else {
        bail!("three numbers are needed: seats, jobs, and steps of a job");
    };
    let (seats, jobs, steps) = (
        seats.parse::<usize>()?,
        jobs.parse::<u64>()?,
        steps.parse::<u64>()?,
    );
    if seats < 1 {
        bail!("there must be a seat");
    }
    if seats > 16 {
        bail!("there can be 16 seats at most");
    }
    let Ok(mut sums) = Vec::from_elem(alloc, 0u64, seats) else {
        bail!("out of memory");
    };
    let Ok(first) = jobs_of(alloc, jobs) else {
        bail!("out of memory");
    };
    let start = Instant::now(&rt)?;
    let Ok(tally) = drain(&rt, alloc, &steps, &mut sums, first, &OpenGate) else {
        bail!("out of memory");
    };
    let took = start.elapsed(&rt)?.as_nanos();
    let (run, sum) = (tally.taken, sum_of(&sums));
    println!(rt; "{run} jobs run, their numbers come to {sum}")?;
    eprintln!(rt; "{took}")?;
    Ok(())
}

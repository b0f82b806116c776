ghost use Rattle.std.specs.Prelude.{◌≡◌, ◌++◌, ◌∷◌, [], ⊤};

use super::*;
use std::alloc::Global;
use std::sync::Wait;
use std::sync::atomic::{AtomicU64, Ordering};
use std::test::Fail;
use std::thread;
use std::thread::Threads;
use upi_base::NoMemory;
use upi_io::{Gate, OpenGate};

/// How many jobs a test begins with.
const FIRST: u32 = 100_000;

// A job that tells its number to its seat, and adds so many.
#[derive(Drop)]
struct Numbered {
    number: u32,
    adds: u32,
}

impl Job for Numbered {
    ghost use Rattle.std.specs.Prelude.{◌≡◌, ◌++◌, ◌∷◌, []};

    type Shared = ();

    type Seat = Vec<u32>;

    ghost does = { λ before job added after. after.items ≡ before.items ++ job.number ∷ [] };

    fn run<R: Threads + Wait + Sync, G: Gate>(
        self,
        _rt: &R,
        _shared: &(),
        seat: &mut Vec<u32>,
        _gate: &G,
        next: &mut Vec<Numbered>,
    ) -> Result<(), NoMemory> {
        for k in 0..self.adds {
            next.push(Numbered {
                number: self
                    .number
                    .wrapping_add(FIRST.wrapping_mul(k.wrapping_add(1))),
                adds: 0,
            })?;
        }
        seat.push(self.number)?;
        Ok(())
    }
}

// A job that runs out of memory, or adds itself again, for ever.
#[derive(Drop)]
struct Endless {
    fails: bool,
}

impl Job for Endless {
    ghost use Rattle.std.specs.Prelude.{⊤};

    type Shared = ();

    type Seat = ();

    ghost does = { λ before job added after. ⊤ };

    fn run<R: Threads + Wait + Sync, G: Gate>(
        self,
        _rt: &R,
        _shared: &(),
        _seat: &mut (),
        _gate: &G,
        next: &mut Vec<Endless>,
    ) -> Result<(), NoMemory> {
        if self.fails {
            return Err(NoMemory);
        }
        next.push(self)?;
        Ok(())
    }
}

// What jobs tell each other: that one has passed, and which of two have begun.
#[derive(Drop)]
struct Signs {
    passed: AtomicU64,
    one: AtomicU64,
    other: AtomicU64,
}

impl Signs {
    // No sign was given.
    fn none() -> Signs {
        Signs {
            passed: AtomicU64::new(0),
            one: AtomicU64::new(0),
            other: AtomicU64::new(0),
        }
    }
}

// Waits for a sign, so many turns at most. The answer is whether it was given.
fn await_sign(sign: &AtomicU64) -> bool {
    for _ in 0..10_000_000 {
        if sign.load(Ordering::SeqCst) == 1 {
            return true;
        }
        thread::yield_now();
    }
    false
}

// A job that gives signs, or waits for them.
#[derive(Drop)]
enum Scene {
    // Waits until a job has passed, and adds many that pass, and two that meet.
    Opens,
    Passes,
    // One of two jobs, each of which waits for the other to have begun.
    Meets { is_one: bool },
}

impl Job for Scene {
    ghost use Rattle.std.specs.Prelude.{⊤};

    type Shared = Signs;

    // Whether a job that met the other has run here.
    type Seat = bool;

    ghost does = { λ before job added after. ⊤ };

    fn run<R: Threads + Wait + Sync, G: Gate>(
        self,
        _rt: &R,
        signs: &Signs,
        seat: &mut bool,
        _gate: &G,
        next: &mut Vec<Scene>,
    ) -> Result<(), NoMemory> {
        match self {
            Scene::Opens => {
                await_sign(&signs.passed);
                for _ in 0..600 {
                    next.push(Scene::Passes)?;
                }
                next.push(Scene::Meets { is_one: true })?;
                next.push(Scene::Meets { is_one: false })?;
            }
            Scene::Passes => signs.passed.store(1, Ordering::SeqCst),
            Scene::Meets { is_one } => {
                let (mine, theirs) = if is_one {
                    (&signs.one, &signs.other)
                } else {
                    (&signs.other, &signs.one)
                };
                mine.store(1, Ordering::SeqCst);
                *seat = await_sign(theirs);
            }
        }
        Ok(())
    }
}

#[test]
fn three_jobs_that_each_make_one_more(rt: HostRuntime) -> Result<(), Fail> {
    let alloc = rt.alloc();
    let mut seats = vec![in alloc; Vec::new(alloc), Vec::new(alloc)]?;
    let first = vec![in alloc;
        Numbered { number: 1, adds: 1 },
        Numbered { number: 2, adds: 1 },
        Numbered { number: 3, adds: 1 },
    ]?;
    let tally = drain(&rt, alloc, &(), &mut seats, first, &OpenGate);
    assert_eq!(rt; tally, Ok(Tally { put: 6, taken: 6 }));
    Ok(())
}

// Notes each number that a seat has seen. The answer is whether each was new.
fn note(seen: &mut [bool], numbers: &[u32]) -> bool {
    let mut all_new = true;
    for number in numbers {
        match seen.get_mut(*number as usize) {
            Some(place) => {
                all_new = all_new && !*place;
                *place = true;
            }
            None => all_new = false,
        }
    }
    all_new
}

#[test]
fn sixteen_seats_see_each_job_once(rt: HostRuntime) -> Result<(), Fail> {
    let alloc = rt.alloc();
    let mut seats = Vec::new(alloc);
    for _ in 0..16 {
        seats.push(Vec::new(alloc))?;
    }
    assert!(rt; seats.len() == 16);
    let mut first = Vec::new(alloc);
    for number in 0..FIRST {
        first.push(Numbered {
            number,
            adds: number % 3,
        })?;
    }
    let tally = drain(&rt, alloc, &(), &mut seats, first, &OpenGate);
    // 33,333 numbers leave 1 when divided by three, and as many leave 2.
    assert_eq!(rt;
        tally,
        Ok(Tally {
            put: 199_999,
            taken: 199_999
        })
    );
    let mut seen = Vec::from_elem(alloc, false, 300_000)?;
    for numbers in seats {
        assert!(rt; note(seen.as_mut_slice(), numbers.as_slice()));
    }
    let mut count = 0u64;
    for place in &seen {
        if *place {
            count = count.saturating_add(1);
        }
    }
    assert_eq!(rt; count, 199_999);
    Ok(())
}

#[test]
fn a_job_without_memory_ends_the_drain(rt: HostRuntime) -> Result<(), Fail> {
    let alloc = rt.alloc();
    let mut seats = vec![in alloc; (), (), (), ()]?;
    let mut first = Vec::new(alloc);
    for k in 0..8 {
        first.push(Endless { fails: k == 5 })?;
    }
    let tally = drain(&rt, alloc, &(), &mut seats, first, &OpenGate);
    assert_eq!(rt; tally, Err(NoMemory));
    assert_eq!(rt; seats.len(), 4);
    Ok(())
}

#[test]
fn two_workers_run_side_by_side(rt: HostRuntime) -> Result<(), Fail> {
    let alloc = rt.alloc();
    let mut seats = vec![in alloc; false, false]?;
    let first = vec![in alloc;
        Scene::Meets { is_one: true },
        Scene::Meets { is_one: false },
    ]?;
    let tally = drain(&rt, alloc, &Signs::none(), &mut seats, first, &OpenGate);
    assert_eq!(rt; tally, Ok(Tally { put: 2, taken: 2 }));
    for met in &seats {
        assert!(rt; *met);
    }
    Ok(())
}

// One worker runs as many jobs while the other adds further ones. The answer is whether the last two
// of these met.
fn both_stay<R: Threads + Wait + Sync>(
    rt: &R,
    alloc: Global,
    passing: u32,
) -> Result<bool, NoMemory> {
    let mut seats = vec![in alloc; false, false]?;
    let mut first = vec![in alloc; Scene::Opens]?;
    for _ in 0..passing {
        first.push(Scene::Passes)?;
    }
    drain(rt, alloc, &Signs::none(), &mut seats, first, &OpenGate)?;
    let [one, other] = seats.as_slice() else {
        return Ok(false);
    };
    Ok(*one && *other)
}

#[test]
fn workers_stay_while_a_job_adds_others(rt: HostRuntime) -> Result<(), Fail> {
    for passing in [30, 100, 300, 30, 100, 300] {
        assert!(rt; both_stay(&rt, rt.alloc(), passing)?);
    }
    Ok(())
}

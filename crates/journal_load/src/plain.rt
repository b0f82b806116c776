// Threads that push to a plain list under a lock.
use crate::Load;
use crate::note::Note;
use std::alloc::Global;
use std::rt::Clock;
use std::sync::{Mutex, Wait};
use std::thread::{self, Threads};
use std::time::Instant;

// Pushes the thread's notes, until there are so many or there is no memory.
fn write_all<R: Wait>(rt: &R, history: &Mutex<Vec<Note>>, thread: u32, count: u64) {
    for number in 0..count {
        if history.lock(rt).push(Note::of(thread, number)).is_err() {
            return;
        }
    }
}

/// So many threads push so many notes each to a list under a lock. The answer is `None` where there
/// was no memory or no clock.
pub fn load<R: Threads + Wait + Sync + Clock>(
    rt: &R,
    alloc: Global,
    threads: u32,
    count: u64,
) -> Option<Load> {
    let history = Mutex::new(Vec::new(alloc));
    let shared = &history;
    let mut numbers = Vec::new(alloc);
    for thread in 0..threads {
        numbers.push(thread).ok()?;
    }
    let at_once = numbers.len().max(1);
    let start = Instant::now(rt).ok()?;
    thread::for_each_mut(
        rt,
        numbers.as_mut_slice(),
        at_once,
        &|_, thread| { write_all(rt, shared, *thread, count) },
    );
    let took = start.elapsed(rt).ok()?;
    Some(Load {
        notes: history.into_inner(),
        took,
    })
}

//! Threads that append notes as fast as they can, to a shared journal or to a plain list under a lock.
//!
//! `journal_load shared|plain THREADS NOTES` says on standard output how many notes there are in the
//! end, and on standard error how long the threads took, in nanoseconds.
#![tactic(auto)]

mod note;
mod plain;
mod shared;

use note::{Note, are_in_order};
use std::time::Duration;
use std::{env, io};

/// What the threads wrote, and how long they took for it.
#[derive(Drop)]
pub struct Load {
    /// The notes, in the order of the history.
    pub notes: Vec<Note>,
    /// How long the threads took.
    pub took: Duration,
}

/// Why there is no figure.
#[derive(Debug, Drop)]
pub enum Trouble {
    /// The words are not `shared` or `plain`, 1 to 64 threads and a number of notes.
    Usage,
    /// There was no memory or no clock.
    NoLoad,
    /// A thread's own notes are not those that it wrote, in order.
    OutOfOrder(u32),
    /// Reading or writing failed.
    Io(io::Error),
}

impl From<io::Error> for Trouble {
    fn from(error: io::Error) -> Trouble {
        Trouble::Io(error)
    }
}

fn main(rt: HostRuntime) -> Result<(), Trouble> {
    let mut words = env::args(&rt)?.skip(1);
    let (Some(kind), Some(threads), Some(count), None) = (
        words.next(),
        words.next(),
        words.next(),
        words.next(),
    ) else {
        return Err(Trouble::Usage);
    };
    let (Ok(threads), Ok(count)) = (threads.parse::<u32>(), count.parse::<u64>()) else {
        return Err(Trouble::Usage);
    };
    if threads < 1 || threads > 64 {
        return Err(Trouble::Usage);
    }
    let load = match kind.as_str() {
        "shared" => shared::load(&rt, rt.alloc(), threads, count),
        "plain" => plain::load(&rt, rt.alloc(), threads, count),
        _ => return Err(Trouble::Usage),
    };
    let load = load.ok_or(Trouble::NoLoad)?;
    for thread in 0..threads {
        if !are_in_order(&load.notes, thread, count) {
            return Err(Trouble::OutOfOrder(thread));
        }
    }
    let length = load.notes.len();
    println!(rt; "{kind}, {threads} threads: {length} notes, those of each thread in order")?;
    let nanoseconds = load.took.as_nanos();
    eprintln!(rt; "{nanoseconds}")?;
    Ok(())
}

#[cfg(test)]
mod tests;

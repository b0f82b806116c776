//! Payments on the switch by tables, by calls: each is asked for, and its nine messages are delivered.
//!
//! `core_bench PAYMENTS` says on standard output how many payments were made, how many entries and
//! messages there are, and how many payments succeeded; on standard error the nanoseconds that the
//! first thousand calls took, the last, the longest and all, and the peak of the process's memory.
#![tactic(auto)]

mod fills;
mod play;

use std::alloc::Global;
use std::hash::RandomState;
use std::{env, fs, io};
use switch_core::Core;
use upi_base::Outcome;

/// Why there is no figure.
#[derive(Debug, Drop)]
enum Trouble {
    /// The one word isn't a number of payments from 0 to 65,536.
    Usage,
    /// There was no memory or no clock.
    NoFigure,
    /// Reading or writing failed.
    Io(io::Error),
}

impl From<io::Error> for Trouble {
    fn from(error: io::Error) -> Trouble {
        Trouble::Io(error)
    }
}

// The number of payments that the words give.
fn asked(rt: &HostRuntime) -> Result<u64, Trouble> {
    let mut words = env::args(rt)?.skip(1);
    let (Some(count), None) = (words.next(), words.next()) else {
        return Err(Trouble::Usage);
    };
    match count.parse::<u64>() {
        Ok(count) if count <= 65_536 => Ok(count),
        _ => Err(Trouble::Usage),
    }
}

// A switch over the setup.
fn switch(rt: &HostRuntime, alloc: Global) -> Result<Core, Trouble> {
    let setup = fills::setup(alloc).ok_or(Trouble::NoFigure)?;
    let core = Core::new(alloc, RandomState::new(rt)?, setup).ok();
    core.ok_or(Trouble::NoFigure)
}

// How many payments succeeded.
fn succeeded(core: &Core) -> Option<u64> {
    let mut count = 0u64;
    for row in &core.rows().ok()? {
        if row.outcome == Some(Outcome::Success) {
            count = count.saturating_add(1);
        }
    }
    Some(count)
}

// Writes what the switch came to.
fn tell(rt: &HostRuntime, core: &Core, count: u64) -> Result<(), Trouble> {
    let (entries, messages) = (core.len(), core.sent_count());
    let succeeded = succeeded(core).ok_or(Trouble::NoFigure)?;
    println!(rt;
        "{count} payments, {entries} entries, {messages} messages, {succeeded} succeeded"
    )?;
    Ok(())
}

// The line of the process's status that has the peak of its memory.
fn tell_peak(rt: &HostRuntime) -> Result<(), Trouble> {
    let status = fs::read_to_string(rt, "/proc/self/status")?;
    for line in status.lines() {
        if line.starts_with("VmHWM") {
            eprintln!(rt; "{line}")?;
        }
    }
    Ok(())
}

// Plays the payments, and writes all figures.
fn measure(rt: &HostRuntime, core: &mut Core, count: u64) -> Result<(), Trouble> {
    let times = play::play(rt, rt.alloc(), core, count).ok_or(Trouble::NoFigure)?;
    let (first, last, most, all) = (times.first, times.last, times.most, times.all);
    eprintln!(rt; "first {first} last {last} most {most} all {all}")?;
    tell_peak(rt)?;
    tell(rt, core, count)
}

fn main(rt: HostRuntime) -> Result<(), Trouble> {
    let count = asked(&rt)?;
    let mut core = switch(&rt, rt.alloc())?;
    measure(&rt, &mut core, count)
}

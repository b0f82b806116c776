//! Plays payments: each is asked for, and then its nine messages are delivered.
ghost use Rattle.std.specs.Prelude.{◌≡◌};
ghost use Rattle.switch_core.specs.Calls.{is_known as knows};

use crate::fills::{Names, START, payment};
use std::alloc::Global;
use std::rt::Clock;
use std::time::Instant;
use switch_core::Core;
use upi_base::{Call, Moment};
use vpa_directory::Directory;

/// How many payments are timed at once: their calls are a thousand.
pub const TIMED: u64 = 100;

/// How many messages a payment sends.
const MESSAGES: u64 = 9;

/// What a thousand calls took, in nanoseconds.
#[derive(Clone, Copy, Drop)]
pub struct Times {
    /// The first thousand.
    pub first: u128,
    /// The last thousand.
    pub last: u128,
    /// The thousand that took longest.
    pub most: u128,
    /// All calls.
    pub all: u128,
}

// Whether the PSP of a Hear is in the setup.
fn is_known(directory: &Directory, call: &Call) -> bool
    ensures { result ≡ knows directory.now.lines call.now }
{
    match call {
        Call::Hear { psp, input: _input } => directory.has_psp(psp),
        _ => true,
    }
}

// Delivers a message.
fn deliver(core: &mut Core, n: u64, now: Moment) -> Option<()> {
    core.apply(Call::Deliver(n), now).ok()?;
    Some(())
}

// Asks for a payment, and delivers its messages.
fn pay(core: &mut Core, call: Call, now: Moment) -> Option<()> {
    let before = core.sent_count();
    if !is_known(core.directory(), &call) {
        return None;
    }
    core.apply(call, now).ok()?;
    for k in 1..=MESSAGES {
        deliver(core, before.checked_add(k)?, now)?;
    }
    Some(())
}

// The calls that ask for so many payments.
fn calls(alloc: Global, names: &mut Names, count: u64) -> Option<Vec<Call>> {
    let mut calls = Vec::new(alloc);
    for _place in 0..count {
        let (number, name) = names.next(alloc)?;
        calls.push(payment(alloc, number, name)?).ok()?;
    }
    Some(calls)
}

fn pay_all(core: &mut Core, calls: Vec<Call>, now: Moment) -> Option<()> {
    for call in calls {
        pay(core, call, now)?;
    }
    Some(())
}

// Plays so many payments. How long their calls took, in nanoseconds.
fn timed<R: Clock>(
    rt: &R,
    alloc: Global,
    core: &mut Core,
    names: &mut Names,
    count: u64,
) -> Option<u128> {
    let now = Moment::of(START)?;
    let calls = calls(alloc, names, count)?;
    let start = Instant::now(rt).ok()?;
    pay_all(core, calls, now)?;
    let took = start.elapsed(rt).ok()?;
    Some(took.as_nanos())
}

// Takes what a thousand calls took; the first were taken before.
fn take(times: &mut Times, took: u128) {
    times.last = took;
    times.most = times.most.max(took);
    times.all = times.all.saturating_add(took);
}

/// Plays so many payments, a hundred at a time. What is left over is played at last, and not timed.
pub fn play<R: Clock>(rt: &R, alloc: Global, core: &mut Core, count: u64) -> Option<Times> {
    let mut names = Names::new();
    let mut times = Times {
        first: 0,
        last: 0,
        most: 0,
        all: 0,
    };
    for k in 0..count.checked_div(TIMED)? {
        let took = timed(rt, alloc, core, &mut names, TIMED)?;
        if k == 0 {
            times.first = took;
        }
        take(&mut times, took);
    }
    timed(rt, alloc, core, &mut names, count.checked_rem(TIMED)?)?;
    Some(times)
}

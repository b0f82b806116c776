//! Plays the lines of a script on both programs.
//!
//! - `E - - SECOND CALL`: a call; where a reply stands behind a `=`, it must be that.
//! - `RUN SECOND N`: a Deliver of each message from number N on, those that come of it too.
//! - `TICK SECOND`: a Late of each transaction that is due then.
//!
//! All else is left alone.
use crate::both::{call_both, last_lines};
use crate::ending;
use std::alloc::Global;
use std::test::Fail;
use switch_core::Core;
use upi_base::{Call, Moment};
use upi_replay::Replay;
use upi_text::{number, word};
use worked_rows::journal::{behind_call, call_of, moment};

// The most messages that a line delivers.
const MOST: u64 = 10_000;

// A call, and what differs behind it, due moments too.
fn call(
    alloc: Global,
    core: &mut Core,
    plain: &mut Replay,
    call: Call,
    now: Moment,
) -> Result<&'static str, Fail> {
    let found = call_both(alloc, core, plain, call, now)?;
    if !found.is_empty() {
        return Ok(found);
    }
    Ok(if ending::same_dues(core, plain)? {
        ""
    } else {
        "due moments"
    })
}

// A Deliver of each message from a number on.
fn run(
    alloc: Global,
    core: &mut Core,
    plain: &mut Replay,
    now: Moment,
    first: u64,
) -> Result<&'static str, Fail> {
    for n in first..MOST {
        if n > core.sent_count() {
            break;
        }
        let found = call(alloc, core, plain, Call::Deliver(n), now)?;
        if !found.is_empty() {
            return Ok(found);
        }
    }
    Ok("")
}

// A Late of each transaction that is due.
fn tick(
    alloc: Global,
    core: &mut Core,
    plain: &mut Replay,
    now: Moment,
) -> Result<&'static str, Fail> {
    if !ending::same_due(core, plain, now.get())? {
        return Ok("what is due");
    }
    for (_due, txn) in &core.due(now.get())? {
        let found = call(alloc, core, plain, Call::Late(txn.copy()), now)?;
        if !found.is_empty() {
            return Ok(found);
        }
    }
    Ok("")
}

// What stands behind the first line of a text's call.
fn first_reply(text: &[u8]) -> &[u8] {
    match text.split(|c| *c == b'\n').next() {
        Some(line) => behind_call(line),
        None => b"",
    }
}

// Whether the last entry has the reply that a line gives, if it gives one.
fn is_replied(alloc: Global, core: &Core, line: &[u8]) -> Result<bool, Fail> {
    let wanted = behind_call(line);
    if wanted.is_empty() {
        return Ok(true);
    }
    let lines = last_lines(alloc, core)?;
    Ok(first_reply(&lines) == wanted)
}

// The call of an E line.
fn enter(
    alloc: Global,
    core: &mut Core,
    plain: &mut Replay,
    line: &[u8],
) -> Result<&'static str, Fail> {
    let now = moment(word(line, 3))?;
    let found = call(alloc, core, plain, call_of(alloc, line)?, now)?;
    if !found.is_empty() {
        return Ok(found);
    }
    Ok(if is_replied(alloc, core, line)? {
        ""
    } else {
        "the reply that the line gives"
    })
}

/// Plays a line. What differs then; nothing, where it is empty.
pub(crate) fn play_line(
    alloc: Global,
    core: &mut Core,
    plain: &mut Replay,
    line: &[u8],
) -> Result<&'static str, Fail> {
    match word(line, 0) {
        b"E" => enter(alloc, core, plain, line),
        b"RUN" => {
            let first = number(word(line, 2)).ok_or("no number")?;
            run(alloc, core, plain, moment(word(line, 1))?, first)
        }
        b"TICK" => tick(alloc, core, plain, moment(word(line, 1))?),
        _ => Ok(""),
    }
}

// Plays all lines, to the first behind which something differs.
fn play_lines(
    alloc: Global,
    core: &mut Core,
    plain: &mut Replay,
    text: &[u8],
) -> Result<&'static str, Fail> {
    for line in text.split(|c| *c == b'\n') {
        let found = play_line(alloc, core, plain, line)?;
        if !found.is_empty() {
            return Ok(found);
        }
    }
    Ok("")
}

/// Plays all lines. What differs then or at the end; nothing, where it is empty.
pub(crate) fn play(
    alloc: Global,
    core: &mut Core,
    plain: &mut Replay,
    text: &[u8],
) -> Result<&'static str, Fail> {
    let found = play_lines(alloc, core, plain, text)?;
    if !found.is_empty() {
        return Ok(found);
    }
    ending::differs(core, plain)
}

//! Mixed calls, drawn by a seed: names that come twice, messages in any order and more than once,
//! moments that mostly rise, and a Close.
use crate::ending;
use crate::play::play_line;
use std::alloc::Global;
use std::test::Fail;
use switch_core::Core;
use upi_replay::Replay;

/// How many lines a mix has.
const LINES: u64 = 300;

/// The line of a mix that closes.
const CLOSE: u64 = 280;

/// What draws numbers, by Knuth's multiplier for 64 bits.
#[derive(Drop)]
pub(crate) struct Draws {
    state: u64,
}

impl Draws {
    pub(crate) fn new(seed: u64) -> Draws {
        Draws { state: seed }
    }

    // A number below another, which isn't 0.
    fn below(&mut self, many: u64) -> u64 {
        self.state = self
            .state
            .wrapping_mul(6_364_136_223_846_793_005)
            .wrapping_add(1_442_695_040_888_963_407);
        (self.state >> 33).checked_rem(many).unwrap_or(0)
    }

    // One of some words.
    fn word(&mut self, words: &[&'static str]) -> &'static str {
        let place = self.below(words.len() as u64) as usize;
        match words.get(place) {
            Some(word) => *word,
            None => "",
        }
    }
}

fn psp(draws: &mut Draws) -> &'static str {
    draws.word(&["alpha", "beta", "alpha", "beta", "gamma"])
}

fn payer(draws: &mut Draws) -> &'static str {
    draws.word(&[
        "ann@alpha",
        "ann@alpha",
        "ann@alpha",
        "amy@alpha",
        "ned@alpha",
    ])
}

fn payee(draws: &mut Draws) -> &'static str {
    draws.word(&[
        "bob@beta",
        "bob@beta",
        "ben@beta",
        "bea@beta",
        "zoe@gamma",
        "nora@gamma",
    ])
}

// The number of a message, mostly one of the last, at times one that wasn't sent.
fn message(draws: &mut Draws, sent: u64) -> u64 {
    let back = draws.below(8);
    if draws.below(5) == 0 {
        draws.below(sent.saturating_add(2))
    } else {
        sent.saturating_sub(back)
    }
}

// What a PSP asks for or answers.
fn heard(alloc: Global, draws: &mut Draws, now: u64) -> Result<String, Fail> {
    let txn = draws.below(24);
    let amount = draws.word(&["1.00", "1.00", "20.00", "51.00"]);
    let (psp, payer, payee) = (psp(draws), payer(draws), payee(draws));
    let line = match draws.below(10) {
        0 | 1 | 2 => format!(in alloc;
            "E - - {now} HEAR alpha PAY T{txn} {amount} {payer} {payee} - - -"
        )?,
        3 => format!(in alloc;
            "E - - {now} HEAR beta COLLECT T{txn} {amount} {payer} {payee} 1 - -"
        )?,
        4 | 5 => format!(in alloc; "E - - {now} HEAR {psp} AUTH T{txn} {amount} YES - -")?,
        6 => format!(in alloc; "E - - {now} HEAR {psp} AUTH T{txn} {amount} NO - -")?,
        7 => format!(in alloc; "E - - {now} HEAR {psp} CHECK T{txn}")?,
        8 => format!(in alloc; "E - - {now} HEAR {psp} CONFIRMED T{txn}")?,
        _ => format!(in alloc; "E - - {now} HEAR {psp} PAY T{txn} {amount} {payer} {payee} - - -")?,
    };
    Ok(line)
}

// A line, where so many messages were sent.
fn line(alloc: Global, draws: &mut Draws, now: u64, sent: u64) -> Result<String, Fail> {
    let n = message(draws, sent);
    let line = match draws.below(16) {
        0 => format!(in alloc; "E - - {now} LOSE {n}")?,
        1 => format!(in alloc; "TICK {now}")?,
        2 => format!(in alloc; "E - - {now} LATE T{}", draws.below(24))?,
        3 => format!(in alloc; "E - - {now} BAD alpha ReqPay.Txn.id VALUE")?,
        4 | 5 | 6 | 7 => heard(alloc, draws, now)?,
        _ => format!(in alloc; "E - - {now} DELIVER {n}")?,
    };
    Ok(line)
}

// The moment behind another: now and then much later, and now and then earlier.
fn later(draws: &mut Draws, now: u64) -> u64 {
    match draws.below(20) {
        0 => now.saturating_add(31),
        1 => now.saturating_sub(20),
        _ => now.saturating_add(draws.below(3)),
    }
}

// Plays a drawn line, or a Close.
fn play_drawn(
    alloc: Global,
    core: &mut Core,
    plain: &mut Replay,
    draws: &mut Draws,
    place: u64,
    now: u64,
) -> Result<&'static str, Fail> {
    if place == CLOSE {
        let close = format!(in alloc; "E - - {now} CLOSE = CLOSED")?;
        return play_line(alloc, core, plain, close.as_bytes());
    }
    let line = line(alloc, draws, now, core.sent_count())?;
    play_line(alloc, core, plain, line.as_bytes())
}

/// Plays a mix. What differs then or at the end; nothing, where it is empty.
pub(crate) fn play_mix(
    alloc: Global,
    core: &mut Core,
    plain: &mut Replay,
    draws: &mut Draws,
) -> Result<&'static str, Fail> {
    let mut now = 1_704_067_200;
    for place in 0..LINES {
        let found = play_drawn(alloc, core, plain, draws, place, now)?;
        if !found.is_empty() {
            return Ok(found);
        }
        now = later(draws, now);
    }
    ending::differs(core, plain)
}

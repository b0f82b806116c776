//! Worked rows, scripts and mixes on both programs.
use crate::both::{lines_of, switch};
use crate::mixes::{Draws, play_mix};
use crate::play::play;
use crate::scripts;
use std::alloc::Global;
use std::test::Fail;
use switch_core::Core;
use upi_base::{Outcome, SetupLines};
use upi_replay::Replay;
use worked_rows::journal::{behind_call, setup_of, wanted};
use worked_rows::{edges, rows};

// The replies and the messages of a switch's history, numbered as they were sent.
fn written(alloc: Global, core: &Core) -> Result<Vec<u8>, Fail> {
    let mut out = Vec::new(alloc);
    let mut sent = 0u64;
    for place in 1..10_000 {
        let Some(entry) = core.entry(place) else {
            break;
        };
        sent = sent.saturating_add(entry.sent.len() as u64);
        out.extend_from_slice(behind_call(&lines_of(alloc, &entry, place, sent)?))?;
    }
    Ok(out)
}

// What differs between both programs, or from what a row has.
fn differs_in_row(
    alloc: Global,
    core: &mut Core,
    plain: &mut Replay,
    text: &[u8],
) -> Result<&'static str, Fail> {
    let found = play(alloc, core, plain, text)?;
    if !found.is_empty() {
        return Ok(found);
    }
    Ok(if written(alloc, core)?.as_slice() == wanted(alloc, text)?.as_slice() {
        ""
    } else {
        "what the row has"
    })
}

// Plays a row on a switch, and on the plain program over the same setup.
fn row_on(
    alloc: Global,
    core: &mut Core,
    lines: SetupLines,
    text: &[u8],
) -> Result<&'static str, Fail> {
    let mut plain = Replay::new(alloc, lines);
    differs_in_row(alloc, core, &mut plain, text)
}

fn difference(rt: &HostRuntime, setup: &[u8], text: &[u8]) -> Result<&'static str, Fail> {
    let setup = setup_of(rt.alloc(), setup)?;
    let lines = setup.lines.copy(rt.alloc())?;
    let mut core = switch(rt, setup)?;
    row_on(rt.alloc(), &mut core, lines, text)
}

#[test]
fn payments_go_as_written(rt: HostRuntime) -> Result<(), Fail> {
    let rows = [
        ("a payment", rows::SETUP, rows::PAID),
        ("the whole balance", rows::SETUP, rows::ALL_OF_IT),
        ("more than the balance", rows::SETUP, rows::NO_FUNDS),
        ("amounts", rows::SETUP, rows::AMOUNTS),
        ("asked for twice", rows::SETUP, rows::ASKED_TWICE),
        ("up to the cap", rows::SETUP_BELOW_CAP, rows::UP_TO_CAP),
        ("past the cap", rows::SETUP_AT_CAP, rows::PAST_CAP),
        ("no credits", rows::SETUP_NO_CREDIT, rows::NO_CREDIT),
        ("a refusal", rows::SETUP_BOB_REFUSES, rows::REFUSED),
        ("an early close", rows::SETUP, rows::CLOSED_EARLY),
        ("one account", rows::SETUP_ONE_ACCOUNT, rows::ONE_ACCOUNT),
    ];
    for (name, setup, text) in rows {
        assert_eq!(rt; difference(&rt, setup, text)?, "", "{name}");
    }
    Ok(())
}

#[test]
fn losses_and_refusals_go_as_written(rt: HostRuntime) -> Result<(), Fail> {
    let rows = [
        ("a debit three times", rows::DEBITED_THRICE),
        ("a credit unheard", rows::CREDIT_UNHEARD),
        ("a credit that is lost", rows::CREDIT_LOST),
        ("a reversal before its debit", rows::REVERSED_FIRST),
        ("a debit unheard", rows::DEBIT_UNHEARD),
        ("no confirmation", rows::UNCONFIRMED),
        ("an unknown payment", rows::UNKNOWN_TXN),
        ("an account of somebody else", rows::OTHER_ACCOUNT),
        ("an unknown payee", rows::UNKNOWN_PAYEE),
        ("another PSP", rows::OTHER_PSP),
        ("an early confirmation", rows::CONFIRMED_EARLY),
    ];
    for (name, text) in rows {
        assert_eq!(rt; difference(&rt, rows::SETUP, text)?, "", "{name}");
    }
    Ok(())
}

#[test]
fn approvals_and_edges_go_as_written(rt: HostRuntime) -> Result<(), Fail> {
    let rows = [
        ("in time", rows::SETUP_ANN_ASKS, rows::IN_TIME),
        ("too late", rows::SETUP_ANN_ASKS, rows::EXPIRED),
        ("late, then Lates", rows::SETUP_ANN_ASKS, rows::LATE_BEHIND),
        ("another amount", rows::SETUP_ANN_ASKS, rows::OTHER_AMOUNT),
        ("the other PSP", rows::SETUP_ANN_ASKS, rows::OTHER_SENDER),
        ("back in time", edges::SETUP_BOB_ASKS, edges::BACK),
        ("answers", edges::SETUP_BOB_ASKS, edges::WORDS),
        ("what is refused", edges::SETUP_THREE, edges::ASKED),
        ("what a close finds", edges::SETUP_FLAGS, edges::CLOSES),
    ];
    for (name, setup, text) in rows {
        assert_eq!(rt; difference(&rt, setup, text)?, "", "{name}");
    }
    Ok(())
}

// Plays a script on a switch, and on the plain program over the same setup.
fn script_on(
    alloc: Global,
    core: &mut Core,
    lines: SetupLines,
    text: &[u8],
) -> Result<&'static str, Fail> {
    let mut plain = Replay::new(alloc, lines);
    play(alloc, core, &mut plain, text)
}

fn difference_in_script(rt: &HostRuntime, text: &[u8]) -> Result<&'static str, Fail> {
    let setup = setup_of(rt.alloc(), scripts::SETUP)?;
    let lines = setup.lines.copy(rt.alloc())?;
    let mut core = switch(rt, setup)?;
    script_on(rt.alloc(), &mut core, lines, text)
}

#[test]
fn scripts_go_alike(rt: HostRuntime) -> Result<(), Fail> {
    let scripts = [
        ("payments", scripts::PAYMENTS),
        ("collects", scripts::COLLECTS),
        ("losses", scripts::LOSSES),
        ("closing", scripts::CLOSING),
    ];
    for (name, text) in scripts {
        assert_eq!(rt; difference_in_script(&rt, text)?, "", "{name}");
    }
    Ok(())
}

// How many payments succeeded, failed and were deemed.
#[derive(Clone, Copy)]
struct Ends {
    success: u64,
    failure: u64,
    deemed: u64,
}

impl Ends {
    // Counts an outcome.
    fn count(&mut self, outcome: Outcome) {
        match outcome {
            Outcome::Success => self.success = self.success.saturating_add(1),
            Outcome::Failure(_code) => self.failure = self.failure.saturating_add(1),
            Outcome::Deemed => self.deemed = self.deemed.saturating_add(1),
        }
    }

    // Whether each came.
    fn all_came(self) -> bool {
        self.success > 0 && self.failure > 0 && self.deemed > 0
    }
}

// Adds what the transactions of a switch came to.
fn add_ends(core: &Core, ends: &mut Ends) -> Result<(), Fail> {
    for row in &core.rows()? {
        match row.outcome {
            Some(outcome) => ends.count(outcome),
            None => {}
        }
    }
    Ok(())
}

// Plays a mix on a switch, and on the plain program over the same setup.
fn mix_on(
    alloc: Global,
    core: &mut Core,
    lines: SetupLines,
    seed: u64,
) -> Result<&'static str, Fail> {
    let mut plain = Replay::new(alloc, lines);
    let mut draws = Draws::new(seed);
    play_mix(alloc, core, &mut plain, &mut draws)
}

// Plays a mix, and adds what its transactions came to.
fn mix_counted(
    alloc: Global,
    core: &mut Core,
    lines: SetupLines,
    seed: u64,
    ends: &mut Ends,
) -> Result<&'static str, Fail> {
    let found = mix_on(alloc, core, lines, seed)?;
    add_ends(core, ends)?;
    Ok(found)
}

fn difference_in_mix(rt: &HostRuntime, seed: u64, ends: &mut Ends) -> Result<&'static str, Fail> {
    let setup = setup_of(rt.alloc(), scripts::SETUP)?;
    let lines = setup.lines.copy(rt.alloc())?;
    let mut core = switch(rt, setup)?;
    mix_counted(rt.alloc(), &mut core, lines, seed, ends)
}

// Eight seeds; each outcome comes in some.
#[test]
fn mixes_go_alike(rt: HostRuntime) -> Result<(), Fail> {
    let mut ends = Ends {
        success: 0,
        failure: 0,
        deemed: 0,
    };
    for seed in 0..8 {
        assert_eq!(rt; difference_in_mix(&rt, seed, &mut ends)?, "", "seed {seed}");
    }
    assert!(rt; ends.all_came());
    Ok(())
}

//! Loads: what the lines of a load play to is a journal, and its audit says yes.
use load_generator::generate;
use script_engine::Engine;
use std::alloc::Global;
use std::hash::RandomState;
use std::str;
use std::test::Fail;
use upi_audit::{Audit, EngineFault, Verdict};

// The network takes its turns, and time goes on.
fn take_turns(engine: &mut Engine, journal: &mut Vec<u8>) -> Result<(), EngineFault> {
    engine.line(b"RUN 7 5", journal)?;
    engine.line(b"TICK 30", journal)
}

// Plays a line of a load; behind each hundredth payment the network takes its turns.
fn play_line(
    engine: &mut Engine,
    line: &str,
    sends: &mut u64,
    journal: &mut Vec<u8>,
) -> Result<(), EngineFault> {
    engine.line(line.as_bytes(), journal)?;
    if !line.starts_with("SEND ") {
        return Ok(());
    }
    *sends = sends.saturating_add(1);
    if *sends % 100 == 0 {
        return take_turns(engine, journal);
    }
    Ok(())
}

// Plays the lines of a load, the payments of which come in whole hundreds.
fn play_lines(engine: &mut Engine, script: &str, journal: &mut Vec<u8>) -> Result<(), EngineFault> {
    let mut sends = 0;
    for line in script.lines() {
        play_line(engine, line, &mut sends, journal)?;
    }
    Ok(())
}

// Plays a load to its end: four more turns, the close, and the report.
fn play_all(engine: &mut Engine, script: &str, journal: &mut Vec<u8>) -> Result<(), EngineFault> {
    play_lines(engine, script, journal)?;
    take_turns(engine, journal)?;
    take_turns(engine, journal)?;
    take_turns(engine, journal)?;
    take_turns(engine, journal)?;
    engine.line(b"CLOSE", journal)?;
    engine.end(journal)
}

// The journal of a load.
fn journal_of(
    alloc: Global,
    hashes: RandomState,
    script: &str,
    journal: &mut Vec<u8>,
) -> Result<(), EngineFault> {
    let mut engine = Engine::new(alloc, hashes);
    play_all(&mut engine, script, journal)
}

// Reads a journal, and counts its E lines.
fn read_all(audit: &mut Audit, journal: &str) -> Result<u64, EngineFault> {
    let mut entries = 0_u64;
    for line in journal.lines() {
        audit.line(line.as_bytes())?;
        if line.starts_with("E ") {
            entries = entries.saturating_add(1);
        }
    }
    Ok(entries)
}

// How many entries a verdict is of, where it is yes and of as many as there are E lines.
fn agreed(entries: u64, verdict: Verdict) -> Option<u64> {
    match verdict {
        Verdict::Yes { entries: told } => { if told == entries { Some(told) } else { None } }
        Verdict::No {
            entry: _entry,
            why: _why,
        } => None,
    }
}

// How many entries a journal has, where its audit says yes of as many as it has E lines.
fn judge(audit: &mut Audit, journal: &str) -> Option<u64> {
    let entries = read_all(audit, journal).ok()?;
    let verdict = audit.end().ok()?;
    agreed(entries, verdict)
}

// The same, by an audit of its own.
fn entries_of(alloc: Global, hashes: RandomState, journal: &str) -> Option<u64> {
    let mut audit = Audit::new(alloc, hashes);
    judge(&mut audit, journal)
}

// How many entries the journal of a load has, where its audit says yes.
fn entries_of_load(alloc: Global, hashes: RandomState, script: &[u8]) -> Option<u64> {
    let mut journal = Vec::new(alloc);
    journal_of(alloc, hashes, str::from_utf8(script).ok()?, &mut journal).ok()?;
    entries_of(alloc, hashes, str::from_utf8(&journal).ok()?)
}

// The same, of 1,800 payments from the seed 1.
fn entries_of_many(alloc: Global, hashes: RandomState) -> Option<u64> {
    let mut script = Vec::new(alloc);
    generate(alloc, 1800, 1, &mut script).ok()?;
    entries_of_load(alloc, hashes, &script)
}

// Each payment comes to some thirteen entries.
#[test]
fn the_journal_of_a_load_is_right(rt: HostRuntime) -> Result<(), Fail> {
    let hashes = RandomState::new(&rt)?;
    let entries = entries_of_many(rt.alloc(), hashes).unwrap_or(0);
    assert!(rt; entries >= 20_000, "{entries}");
    Ok(())
}

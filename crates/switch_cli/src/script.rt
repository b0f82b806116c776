//! A script, run over the lines of a source.
ghost use Rattle.std.specs.Prelude.{◌≡◌, ◌≢◌, ◌<◌, ◌≤◌, ◌+◌, [], None, Some, Ok, Err, IfOk, OnErr, length, true};
ghost use Rattle.upi_io.specs.Faults.{Rose};
ghost use Rattle.upi_io.specs.Lines.{ahead, holds_line};
ghost use Rattle.script_engine.specs.Engine.{fresh};
ghost use Rattle.switch_cli.specs.Run.{IsTrusted, Ran};
ghost use Rattle.switch_cli.specs.calls.Steps.{PlaysAs, played_next, read_status, play_status, status_of, Steps};
ghost use Rattle.switch_cli.specs.calls.Pieces.{IsOut, HandsOn, Leaves};
ghost use Rattle.switch_cli.specs.declared.script.TheConstants.{PIECE};

use script_engine::{Engine, EngineFault};
use std::alloc::Global;
use std::hash::RandomState;
use upi_base::Why;
use upi_io::{Line, LineFault, LineReader, Sink, Source, Status, Wrote, write_all};

// How many bytes of a script's text are kept back at most, while further lines are there already.
const PIECE: usize = 65_536;

/// Why a run of a script stops before its end.
#[derive(Clone, Copy, Debug, PartialEq, Eq)]
enum Stop {
    /// The next line wasn't found.
    Read(LineFault),
    /// It wasn't played.
    Play(EngineFault),
}

impl From<LineFault> for Stop {
    ghost use Rattle.switch_cli.specs.declared.script.Stop.{Stop};

    ghost from_gives = { λ fault stop. stop ≡ Stop.Read fault };

    fn from(fault: LineFault) -> Stop {
        Stop::Read(fault)
    }
}

impl From<EngineFault> for Stop {
    ghost use Rattle.switch_cli.specs.declared.script.Stop.{Stop};

    ghost from_gives = { λ fault stop. stop ≡ Stop.Play fault };

    fn from(fault: EngineFault) -> Stop {
        Stop::Play(fault)
    }
}

// How a run ends where the line of this number isn't found.
pub(crate) fn read_status(line: u64, fault: LineFault) -> Status
    ensures { result ≡ read_status line fault }
{
    match fault {
        LineFault::TooLong { at } => Status::TooLong { line: at },
        LineFault::TooMany => Status::BadLine {
            line,
            field: 0,
            why: Why::Limit,
        },
        LineFault::ReadFault => Status::ReadFault,
        LineFault::NoMemory => Status::NoMemory,
    }
}

// How a run ends where the line of this number isn't played.
pub(crate) fn play_status(line: u64, fault: EngineFault) -> Status
    ensures { result ≡ play_status line fault }
{
    match fault {
        EngineFault::Bad { field, why } => Status::BadLine { line, field, why },
        EngineFault::NoMemory => Status::NoMemory,
    }
}

// How a run ends that stops at the line of this number.
fn status_of(line: u64, stop: Stop) -> Status
    ensures { result ≡ status_of line stop }
{
    match stop {
        Stop::Read(fault) => read_status(line, fault),
        Stop::Play(fault) => play_status(line, fault),
    }
}

// Plays what was found: a line, or the end. What it writes comes behind the text that is kept back.
#[tactic(auto, using(crate::proofs::Trust::trusted))]
fn play(
    engine: &mut Engine,
    found: Line,
    line: &[u8],
    kept: &mut Vec<u8>,
) -> Result<(), EngineFault>
    ensures answer { PlaysAs (played_next engine.old.play line.now found) kept.old.items kept.new.items engine.new.play result }
    ensures trusted { IsTrusted engine.new.play }
{
    match found {
        Line::Got => engine.line(line, kept),
        Line::End => engine.end(kept),
    }
}

// Reads the next line and plays it; where no line is left, plays the end. It answers which of the two it was.
// Nothing may be kept back where the line has to be asked for: so whoever types it has seen all that the
// lines before it wrote.
fn step<S: Source>(
    reader: &mut LineReader,
    engine: &mut Engine,
    source: &mut S,
    line: &mut Vec<u8>,
    kept: &mut Vec<u8>,
) -> Result<Line, Stop>
    requires fresh { reader.old.fault ≡ None }
    requires out { IsOut reader.old kept.old.items }
    ensures steps { Steps reader.old.lines (ahead reader.old (S.left source.old)) (ahead reader.new (S.left source.new)) (S.left source.new) line.new.items
        engine.old.play kept.old.items kept.new.items engine.new.play result }
    ensures trusted { IsTrusted engine.old.play → IsTrusted engine.new.play }
    ensures go_on { result ≡ Ok Line.Got → (reader.new.fault ≡ None) × (reader.new.lines ≡ reader.old.lines + 1) }
    ensures unread { holds_line reader.old ≡ true → source.new ≡ source.old }
    ensures ended { result ≡ Ok Line.End → S.ended source.new ≡ true }
    ensures reads { S.faults source.old ≤ S.faults source.new }
    ensures read { result ≡ Err (Stop.Read LineFault.ReadFault) → Rose (S.faults source.old) (S.faults source.new) }
    ensures sure { S.sure source.old ≡ true → (S.sure source.new ≡ true) × (result ≢ Err (Stop.Read LineFault.ReadFault)) }
{
    let found = reader.next(source, line)?;
    play(engine, found, line, kept)?;
    Ok(found)
}

// Writes what is kept back, unless a further line is there already and what is kept is less than a piece.
fn hand_on<K: Sink>(reader: &LineReader, kept: &mut Vec<u8>, sink: &mut K) -> Result<(), Wrote>
    ensures hands { HandsOn (K.taken sink.old) (K.taken sink.new) kept.old.items kept.new.items result }
    ensures out { IfOk result (λ _. IsOut reader.now kept.new.items) }
    ensures few { IfOk result (λ _. length kept.new.items < PIECE) }
    ensures writes { K.faults sink.old ≤ K.faults sink.new }
    ensures write { OnErr result (Rose (K.faults sink.old) (K.faults sink.new)) }
{
    if reader.holds_line() && kept.len() < PIECE {
        return Ok(());
    }
    let wrote = write_all(sink, kept);
    kept.clear();
    wrote
}

// Plays the lines of a source on an engine that has read nothing. The last part of what they write is left
// in `kept`, and is still to be written, however that ends.
fn play_kept<S: Source, K: Sink>(
    engine: &mut Engine,
    alloc: Global,
    source: &mut S,
    sink: &mut K,
    kept: &mut Vec<u8>,
) -> Status
    requires fresh { engine.old ≡ fresh }
    requires empty { kept.old.items ≡ [] }
    ensures leaves { Leaves (S.left source.old) (S.left source.new) (K.taken sink.old) (K.taken sink.new) kept.new.items result }
    ensures read { result ≡ Status.ReadFault → Rose (S.faults source.old) (S.faults source.new) }
    ensures write { result ≡ Status.WriteFault → Rose (K.faults sink.old) (K.faults sink.new) }
    ensures reads { S.faults source.old ≤ S.faults source.new }
    ensures writes { K.faults sink.old ≤ K.faults sink.new }
    ensures ended { result ≡ Status.Done → S.ended source.new ≡ true }
    ensures sure { S.sure source.old ≡ true → result ≢ Status.ReadFault }
    ensures usage { result ≢ Status.Usage }
{
    let mut reader = LineReader::new();
    let mut line = Vec::new(alloc);
    let mut number = 0u64;
    'lines: loop {
        match hand_on(&reader, kept, sink) {
            Ok(()) => {}
            Err(_wrote) => return Status::WriteFault,
        }
        match step(&mut reader, engine, source, &mut line, kept) {
            Ok(Line::Got) => number += 1,
            Ok(Line::End) => return Status::Done,
            Err(stop) => return status_of(number + 1, stop),
        }
    }
}

// Plays the lines of a source on an engine that has read nothing, and writes what they write.
fn play_lines<S: Source, K: Sink>(
    engine: &mut Engine,
    alloc: Global,
    source: &mut S,
    sink: &mut K,
) -> Status
    requires { engine.old ≡ fresh }
    ensures ran { Ran (S.left source.old) (S.left source.new) (K.taken sink.old) (K.taken sink.new) result }
    ensures read { result ≡ Status.ReadFault → Rose (S.faults source.old) (S.faults source.new) }
    ensures write { result ≡ Status.WriteFault → Rose (K.faults sink.old) (K.faults sink.new) }
    ensures reads { S.faults source.old ≤ S.faults source.new }
    ensures writes { K.faults sink.old ≤ K.faults sink.new }
    ensures ended { result ≡ Status.Done → S.ended source.new ≡ true }
    ensures sure { S.sure source.old ≡ true → result ≢ Status.ReadFault }
    ensures usage { result ≢ Status.Usage }
{
    let mut kept = Vec::new(alloc);
    let status = play_kept(engine, alloc, source, sink, &mut kept);
    match write_all(sink, &kept) {
        Ok(()) => status,
        Err(_wrote) => Status::WriteFault,
    }
}

/// Runs a script over the lines of a source. What its lines write goes out in pieces of 64 KB or more, and
/// all of it before the source is asked for a line.
pub(crate) fn run_script<S: Source, K: Sink>(
    alloc: Global,
    hashes: RandomState,
    source: &mut S,
    sink: &mut K,
) -> Status
    ensures ran { Ran (S.left source.old) (S.left source.new) (K.taken sink.old) (K.taken sink.new) result }
    ensures read { result ≡ Status.ReadFault → Rose (S.faults source.old) (S.faults source.new) }
    ensures write { result ≡ Status.WriteFault → Rose (K.faults sink.old) (K.faults sink.new) }
    ensures reads { S.faults source.old ≤ S.faults source.new }
    ensures writes { K.faults sink.old ≤ K.faults sink.new }
    ensures ended { result ≡ Status.Done → S.ended source.new ≡ true }
    ensures sure { S.sure source.old ≡ true → result ≢ Status.ReadFault }
    ensures usage { result ≢ Status.Usage }
{
    let mut engine = Engine::new(alloc, hashes);
    play_lines(&mut engine, alloc, source, sink)
}

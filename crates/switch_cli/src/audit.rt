//! A journal, audited over the lines of a source.
ghost use Rattle.std.specs.Prelude.{◌≡◌, ◌≢◌, ◌<◌, ◌≤◌, ◌+◌, true, None, Some, Ok, Err};
ghost use Rattle.upi_io.specs.Faults.{Rose};
ghost use Rattle.upi_io.specs.Lines.{ahead};
ghost use Rattle.upi_audit.specs.Journal.{blank_journal};
ghost use Rattle.upi_audit.specs.calls.Keeping.{HasRead};
ghost use Rattle.switch_cli.specs.Audits.{Audits, verdict_status, is_final};
ghost use Rattle.switch_cli.specs.calls.AuditSteps.{Takes, AuditSteps, halt_status, Tells, Closes};

use crate::script::{play_status, read_status};
use std::alloc::Global;
use std::hash::RandomState;
use upi_audit::{Audit, write_verdict};
use upi_base::{EngineFault, Verdict};
use upi_io::{Line, LineFault, LineReader, Sink, Source, Status, write_all};

/// Why an audit stops before the end of its lines.
#[derive(Clone, Copy, Debug, PartialEq, Eq)]
enum Halt {
    /// The next line wasn't found.
    Read(LineFault),
    /// It wasn't taken.
    Take(EngineFault),
}

impl From<LineFault> for Halt {
    ghost use Rattle.switch_cli.specs.declared.audit.Halt.{Halt};

    ghost from_gives = { λ fault halt. halt ≡ Halt.Read fault };

    fn from(fault: LineFault) -> Halt {
        Halt::Read(fault)
    }
}

impl From<EngineFault> for Halt {
    ghost use Rattle.switch_cli.specs.declared.audit.Halt.{Halt};

    ghost from_gives = { λ fault halt. halt ≡ Halt.Take fault };

    fn from(fault: EngineFault) -> Halt {
        Halt::Take(fault)
    }
}

// How an audit ends that stops at the line of this number.
fn halt_status(line: u64, halt: Halt) -> Status
    ensures { result ≡ halt_status line halt }
{
    match halt {
        Halt::Read(fault) => read_status(line, fault),
        Halt::Take(fault) => play_status(line, fault),
    }
}

// Takes what was found: a line, or the end.
fn take(audit: &mut Audit, found: Line, line: &[u8]) -> Result<(), EngineFault>
    ensures { Takes audit.old found line.now audit.new result }
{
    match found {
        Line::Got => audit.line(line),
        Line::End => Ok(()),
    }
}

// Reads the next line, and hands it to an audit. It answers whether there was one.
fn step<S: Source>(
    reader: &mut LineReader,
    audit: &mut Audit,
    source: &mut S,
    line: &mut Vec<u8>,
) -> Result<Line, Halt>
    requires { reader.old.fault ≡ None }
    ensures steps { AuditSteps reader.old.lines (ahead reader.old (S.left source.old)) (ahead reader.new (S.left source.new)) (S.left source.new) line.new.items
        audit.old audit.new result }
    ensures go_on { result ≡ Ok Line.Got → (reader.new.fault ≡ None) × (reader.new.lines ≡ reader.old.lines + 1) }
    ensures ended { result ≡ Ok Line.End → S.ended source.new ≡ true }
    ensures reads { S.faults source.old ≤ S.faults source.new }
    ensures read { result ≡ Err (Halt.Read LineFault.ReadFault) → Rose (S.faults source.old) (S.faults source.new) }
    ensures sure { S.sure source.old ≡ true → (S.sure source.new ≡ true) × (result ≢ Err (Halt.Read LineFault.ReadFault)) }
{
    let found = reader.next(source, line)?;
    take(audit, found, line)?;
    Ok(found)
}

// How an audit ends with a verdict.
fn verdict_status(verdict: Verdict) -> Status
    ensures { result ≡ verdict_status verdict }
{
    match verdict {
        Verdict::Yes { entries: _entries } => Status::Done,
        Verdict::No { entry, why } => Status::AuditNo { entry, why },
    }
}

// Writes a verdict.
fn tell<K: Sink>(alloc: Global, verdict: Verdict, sink: &mut K) -> Status
    ensures tells { Tells verdict (K.taken sink.old) (K.taken sink.new) result }
    ensures write { result ≡ Status.WriteFault → Rose (K.faults sink.old) (K.faults sink.new) }
    ensures writes { K.faults sink.old ≤ K.faults sink.new }
{
    let mut text = Vec::new(alloc);
    if write_verdict(verdict, &mut text).is_err() {
        return Status::NoMemory;
    }
    match write_all(sink, &text) {
        Ok(()) => verdict_status(verdict),
        Err(_wrote) => Status::WriteFault,
    }
}

// Ends an audit that has read all lines, where the next would have this number: its verdict is written.
fn close<K: Sink>(audit: &Audit, alloc: Global, line: u64, sink: &mut K) -> Status
    ensures closes { Closes audit.now line (K.taken sink.old) (K.taken sink.new) result }
    ensures write { result ≡ Status.WriteFault → Rose (K.faults sink.old) (K.faults sink.new) }
    ensures writes { K.faults sink.old ≤ K.faults sink.new }
    ensures read { result ≢ Status.ReadFault }
    ensures usage { result ≢ Status.Usage }
{
    match audit.end() {
        Ok(verdict) => tell(alloc, verdict, sink),
        Err(fault) => play_status(line, fault),
    }
}

// Audits the lines of a source by an audit that has read nothing.
fn audit_lines<S: Source, K: Sink>(
    audit: &mut Audit,
    alloc: Global,
    source: &mut S,
    sink: &mut K,
) -> Status
    requires { HasRead blank_journal audit.old }
    ensures audits { Audits (S.left source.old) (S.left source.new) (K.taken sink.old) (K.taken sink.new) result }
    ensures read { result ≡ Status.ReadFault → Rose (S.faults source.old) (S.faults source.new) }
    ensures write { result ≡ Status.WriteFault → Rose (K.faults sink.old) (K.faults sink.new) }
    ensures reads { S.faults source.old ≤ S.faults source.new }
    ensures writes { K.faults sink.old ≤ K.faults sink.new }
    ensures ended { is_final result ≡ true → S.ended source.new ≡ true }
    ensures sure { S.sure source.old ≡ true → result ≢ Status.ReadFault }
    ensures usage { result ≢ Status.Usage }
{
    let mut reader = LineReader::new();
    let mut line = Vec::new(alloc);
    let mut number = 0u64;
    'lines: loop {
        match step(&mut reader, audit, source, &mut line) {
            Ok(Line::Got) => number += 1,
            Ok(Line::End) => return close(audit, alloc, number + 1, sink),
            Err(halt) => return halt_status(number + 1, halt),
        }
    }
}

/// Audits the journal that the lines of a source are. All of it is read before its verdict is written.
pub(crate) fn run_audit<S: Source, K: Sink>(
    alloc: Global,
    hashes: RandomState,
    source: &mut S,
    sink: &mut K,
) -> Status
    ensures audits { Audits (S.left source.old) (S.left source.new) (K.taken sink.old) (K.taken sink.new) result }
    ensures read { result ≡ Status.ReadFault → Rose (S.faults source.old) (S.faults source.new) }
    ensures write { result ≡ Status.WriteFault → Rose (K.faults sink.old) (K.faults sink.new) }
    ensures reads { S.faults source.old ≤ S.faults source.new }
    ensures writes { K.faults sink.old ≤ K.faults sink.new }
    ensures ended { is_final result ≡ true → S.ended source.new ≡ true }
    ensures sure { S.sure source.old ≡ true → result ≢ Status.ReadFault }
    ensures usage { result ≢ Status.Usage }
{
    let mut audit = Audit::new(alloc, hashes);
    audit_lines(&mut audit, alloc, source, sink)
}

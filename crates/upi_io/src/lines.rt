//! The lines of a source.
ghost use Rattle.std.specs.Prelude.{◌≡◌, ◌<◌, ◌≤◌, ◌+◌, List, ℕ, [], Some, None, Ok, Err, length, drop, true, false, IfSome, OnErr};
ghost use Rattle.std.specs.List.{prefix_len};
ghost use Rattle.std.specs.Io.KnownBytes.{prepend_known, IsAtEnd};
ghost use Rattle.upi_io.specs.Faults.{Rose};
ghost use Rattle.upi_io.specs.Streams.{ReadCause, ReadSurely, ended_after};
ghost use Rattle.upi_io.specs.Lines.{line_len, LineCause, LineSurely, IsLine, IsCutOff, IsNumbered, AnswersAhead, without_cr, ahead, holds_line, count_after, fault_after};
ghost use Rattle.upi_io.specs.Steps.{Fills, TakesPart, IsReady, Advances};

use crate::source::{ReadAnswer, Source};
use memchr::memchr;
use std::marker::Model;

/// What the reader found.
#[derive(Clone, Copy, Debug, PartialEq, Eq)]
pub enum Line {
    /// A line. It is in the buffer that was handed in.
    Got,
    /// The source has ended, and every line of it was given.
    End,
}

/// Why the reader gave no line. It then gives none for good.
#[derive(Clone, Copy, Debug, PartialEq, Eq)]
pub enum LineFault {
    /// A line has more than `MAX_LINE` bytes before its LF.
    TooLong {
        /// The number of the line. The first line is line 1.
        at: u64,
    },
    /// There are more than `MAX_LINES` lines.
    TooMany,
    /// The source failed.
    ReadFault,
    /// There was no memory for the line.
    NoMemory,
}

/// The most bytes of a line before its LF, a CR among them.
pub const MAX_LINE: usize = 65_536;

/// The most lines of a source.
pub const MAX_LINES: u64 = 16_777_216;

// The most bytes that one read asks for.
const ROOM: usize = 65_536;

// Bytes that were read and not yet given.
#[derive(Drop)]
struct Held {
    buf: [u8; ROOM],
    start: usize,
    end: usize,
}

impl Model for Held {
    ghost use Rattle.std.specs.Prelude.{◌-◌, ◌≤◌, List, ℕ, take, drop};
    ghost use Rattle.upi_io.specs.declared.lines.TheConstants.{ROOM};

    ghost Value = { List ℕ };

    ghost view = { λ h. take (h.end - h.start) (drop h.start h.buf) };

    ghost invariant = { λ h. (h.start ≤ h.end) × (h.end ≤ ROOM) };
}

impl Held {
    fn new() -> Held
        ensures { result ≡ [] }
    {
        Held {
            buf: [0; ROOM],
            start: 0,
            end: 0,
        }
    }

    // The bytes.
    fn bytes(&self) -> &[u8]
        ensures { result.now ≡ self.now }
    {
        &self.buf[self.start..self.end]
    }

    // Lets the first bytes go.
    fn skip(&mut self, count: usize)
        requires { count ≤ length self.old }
        ensures { self.new ≡ drop count self.old }
    {
        self.start += count;
    }

    // Takes the next bytes of a source in place of those that were here.
    fn fill<S: Source>(&mut self, source: &mut S) -> ReadAnswer
        requires { self.old ≡ [] }
        ensures bytes { Fills (S.left source.old) (S.left source.new) self.new result }
        ensures end { S.ended source.new ≡ ended_after (S.ended source.old) result }
        ensures cause { ReadCause (S.faults source.old) (S.faults source.new) result }
        ensures sure { ReadSurely (S.sure source.old) (S.sure source.new) result }
    {
        self.start = 0;
        self.end = 0;
        let answer = source.read(&mut self.buf);
        if let ReadAnswer::Got(n) = answer {
            self.end = n;
        }
        answer
    }
}

// How many bytes stand before the first LF.
#[tactic(auto, using(crate::proofs::Search::len_none, crate::proofs::Search::len_some))]
fn line_len(bytes: &[u8]) -> usize
    ensures count { result ≡ line_len bytes.now }
    ensures within { result ≤ length bytes.now }
{
    match memchr(b'\n', bytes) {
        Some(at) => at,
        None => bytes.len(),
    }
}

// Puts the held bytes up to the first LF at the end of a line. It answers whether there was an LF.
fn take_part(held: &mut Held, line: &mut Vec<u8>, at: u64) -> Result<bool, LineFault>
    requires { length line.old.items ≤ MAX_LINE }
    ensures { TakesPart held.old line.old.items at held.new line.new.items result }
{
    let part = held.bytes();
    let count = line_len(part);
    if count > MAX_LINE - line.len() {
        return Err(LineFault::TooLong { at });
    }
    if line.extend_from_slice(&part[..count]).is_err() {
        return Err(LineFault::NoMemory);
    }
    if count < part.len() {
        held.skip(count + 1);
        Ok(true)
    } else {
        held.skip(count);
        Ok(false)
    }
}

// Sees that a byte is held, if there is one left.
fn ready<S: Source>(held: &mut Held, source: &mut S) -> Result<bool, LineFault>
    ensures bytes { IsReady held.old held.new (S.left source.old) (S.left source.new) result }
    ensures ended { result ≡ Ok false → S.ended source.new ≡ true }
    ensures unread { 0 < length held.old → (held.new ≡ held.old) × (source.new ≡ source.old) }
    ensures cause { LineCause (S.faults source.old) (S.faults source.new) result }
    ensures sure { LineSurely (S.sure source.old) (S.sure source.new) result }
{
    if !held.bytes().is_empty() {
        return Ok(true);
    }
    match held.fill(source) {
        ReadAnswer::Got(_) => Ok(true),
        ReadAnswer::End => Ok(false),
        ReadAnswer::Failed => Err(LineFault::ReadFault),
    }
}

// Reads to the end of a line, or to the end of the source. It answers whether there was an LF.
fn advance<S: Source>(
    held: &mut Held,
    source: &mut S,
    line: &mut Vec<u8>,
    at: u64,
) -> Result<bool, LineFault>
    requires { line.old.items ≡ [] }
    ensures bytes { Advances (prepend_known held.old (S.left source.old)) held.new (S.left source.new) line.new.items at result }
    ensures unread { line_len held.old < length held.old → source.new ≡ source.old }
    ensures cause { LineCause (S.faults source.old) (S.faults source.new) result }
    ensures sure { LineSurely (S.sure source.old) (S.sure source.new) result }
{
    loop {
        if !ready(held, source)? {
            return Ok(false);
        }
        if take_part(held, line, at)? {
            return Ok(true);
        }
    }
}

// Drops one CR at the end of a line.
fn drop_cr(line: &mut Vec<u8>)
    ensures { line.new.items ≡ without_cr line.old.items }
{
    let len = line.len();
    if len > 0 && line[len - 1] == b'\r' {
        line.truncate(len - 1);
    }
}

// The next line, after so many.
fn next_line<S: Source>(
    held: &mut Held,
    lines: u64,
    source: &mut S,
    line: &mut Vec<u8>,
) -> Result<Line, LineFault>
    requires empty { line.old.items ≡ [] }
    ensures bytes { AnswersAhead lines (prepend_known held.old (S.left source.old)) (prepend_known held.new (S.left source.new)) line.new.items result }
    ensures cause { LineCause (S.faults source.old) (S.faults source.new) result }
    ensures sure { LineSurely (S.sure source.old) (S.sure source.new) result }
    ensures number { IsNumbered lines result }
    ensures line { IsLine line.new.items }
    ensures cut { OnErr result (IsCutOff (prepend_known held.old (S.left source.old)) (prepend_known held.new (S.left source.new)) line.new.items) }
    ensures read_fault { result ≡ Err LineFault.ReadFault → IsCutOff (prepend_known held.old (S.left source.old)) (S.left source.new) line.new.items }
    ensures ended { result ≡ Ok Line.End → S.ended source.new ≡ true }
    ensures over { result ≡ Ok Line.End → IsAtEnd (S.left source.new) }
    ensures none_held { result ≡ Ok Line.End → held.new ≡ [] }
    ensures unread { line_len held.old < length held.old → source.new ≡ source.old }
{
    match ready(held, source) {
        Ok(true) => {}
        Ok(false) => return Ok(Line::End),
        Err(fault) => return Err(fault),
    }
    if lines >= MAX_LINES {
        return Err(LineFault::TooMany);
    }
    match advance(held, source, line, lines + 1) {
        Ok(true) => {
            drop_cr(line);
            Ok(Line::Got)
        }
        Ok(false) => Ok(Line::Got),
        Err(fault) => Err(fault),
    }
}

/// Reads the lines of one source, in pieces of up to 65,536 bytes.
///
/// A line ends at LF. The LF is dropped, and so is one CR right before it. Bytes behind the last LF
/// are a line too, and keep their CR.
#[derive(Drop)]
pub struct LineReader {
    held: Held,
    lines: u64,
    fault: Option<LineFault>,
}

impl Model for LineReader {
    ghost use Rattle.std.specs.Prelude.{◌≤◌};
    ghost use Rattle.upi_io.specs.Lines.{ReaderState};
    ghost use Rattle.upi_io.specs.declared.lines.TheConstants.{MAX_LINES};

    ghost Value = { ReaderState };

    ghost view = { λ r. record { held = r.held; lines = r.lines; fault = r.fault } };

    ghost invariant = { λ r. r.lines ≤ MAX_LINES };
}

impl LineReader {
    /// A reader that has read nothing.
    pub fn new() -> LineReader
        ensures { result ≡ record { held = []; lines = 0; fault = None } }
    {
        LineReader {
            held: Held::new(),
            lines: 0,
            fault: None,
        }
    }

    /// Whether a whole line was read that wasn't given yet. Then the next line wants nothing of the source.
    pub fn holds_line(&self) -> bool
        ensures { result ≡ holds_line self.now }
    {
        let held = self.held.bytes();
        line_len(held) < held.len()
    }

    /// Reads the next line into `line`, whose former bytes go.
    ///
    /// `TooLong` comes only where the line has more than 65,536 bytes before its LF, a CR counted, and
    /// `TooMany` only where line 16,777,217 begins; there no line comes. `ReadFault` comes only where
    /// the source failed. At a fault `line` has what was read of the line that isn't given, and no other
    /// byte is gone. After a fault the same fault is answered for good, and nothing is read. Of a source
    /// that doesn't tell what it has left, no more is promised of a line than that it has no LF and
    /// isn't too long.
    pub fn next<S: Source>(&mut self, source: &mut S, line: &mut Vec<u8>) -> Result<Line, LineFault>
        // The answer is what the lines ahead call for, where the source tells what it has left.
        ensures answer { self.old.fault ≡ None
            → AnswersAhead self.old.lines (ahead self.old (S.left source.old)) (ahead self.new (S.left source.new)) line.new.items result }
        // What is in the buffer has no LF and at most `MAX_LINE` bytes, whatever the source tells.
        ensures line { result ≡ Ok Line.Got → IsLine line.new.items }
        // A fault loses nothing: the buffer has what was read of a line that wasn't given, and all else is
        // still ahead. At a read fault no byte is held: it is what the source has left.
        ensures cut { self.old.fault ≡ None
            → OnErr result (IsCutOff (ahead self.old (S.left source.old)) (ahead self.new (S.left source.new)) line.new.items) }
        ensures read_fault { self.old.fault ≡ None → result ≡ Err LineFault.ReadFault
            → IsCutOff (ahead self.old (S.left source.old)) (S.left source.new) line.new.items }
        // The lines given are counted, and a fault is kept.
        ensures count { self.old.fault ≡ None → self.new.lines ≡ count_after self.old.lines result }
        ensures fault { self.old.fault ≡ None → self.new.fault ≡ fault_after result }
        ensures few { result ≡ Ok Line.Got → self.old.lines < MAX_LINES }
        ensures number { self.old.fault ≡ None → IsNumbered self.old.lines result }
        // The end comes only where the source answered that it has ended, and nothing is left or held.
        ensures ended { result ≡ Ok Line.End → S.ended source.new ≡ true }
        ensures over { result ≡ Ok Line.End → IsAtEnd (S.left source.new) }
        ensures none_held { result ≡ Ok Line.End → self.new.held ≡ [] }
        // Where a whole line is held, the source isn't asked.
        ensures unread { holds_line self.old ≡ true → source.new ≡ source.old }
        // A read fault comes only where the source failed.
        ensures cause { self.old.fault ≡ None → LineCause (S.faults source.old) (S.faults source.new) result }
        ensures sure { self.old.fault ≡ None → LineSurely (S.sure source.old) (S.sure source.new) result }
        // After a fault nothing is read.
        ensures same { IfSome self.old.fault (λ f. (result ≡ Err f) × (self.new ≡ self.old) × (source.new ≡ source.old) × (line.new.items ≡ line.old.items)) }
    {
        if let Some(fault) = self.fault {
            return Err(fault);
        }
        line.clear();
        let answer = next_line(&mut self.held, self.lines, source, line);
        match answer {
            Ok(Line::Got) => self.lines += 1,
            Ok(Line::End) => {}
            Err(fault) => self.fault = Some(fault),
        }
        answer
    }
}

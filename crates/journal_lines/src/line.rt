//! The lines of a journal after OPEN, up to REPORT.
ghost use Rattle.std.specs.Prelude.{◌≡◌};
ghost use Rattle.upi_text.specs.Words.{words};
ghost use Rattle.journal_lines.specs.Lines;
ghost use Rattle.journal_lines.specs.calls.Reading.{ReadAs};

use crate::call::MessageReader;
use crate::entry::EntryLine;
use crate::message::message_read;
use crate::spelled::{is, is_utf8};
use std::alloc::Global;
use upi_base::EngineFault;
use upi_text::{Refusal, is_skipped, word, word_count};

/// What the first word of a line names.
#[derive(Clone, Copy, Debug, PartialEq, Eq)]
pub(crate) enum LineWord {
    Entry,
    Message,
    Report,
}

/// What a line says after OPEN.
#[derive(Drop)]
pub enum JournalLine {
    /// Nothing: the line is passed over.
    Skipped,
    /// E: what happened.
    Entry(EntryLine),
    /// M: a message that the entry before it sent. Its words are within their grammars; what it says
    /// is held against the switch as text.
    Message,
    /// REPORT: the lines after it are the report.
    Report,
}

// What a word names.
#[tactic(auto, unfolding(crate::specs::Lines::line_word))]
fn line_word(word: &[u8]) -> Option<LineWord>
    ensures { result ≡ Lines.line_word word.now }
{
    if is(word, b"E") {
        Some(LineWord::Entry)
    } else if is(word, b"M") {
        Some(LineWord::Message)
    } else if is(word, b"REPORT") {
        Some(LineWord::Report)
    } else {
        None
    }
}

// An M line after so many entries.
#[tactic(auto, unfolding(crate::specs::Lines::message_after))]
fn message_after(entries: u64, line: &[u8]) -> Result<JournalLine, Refusal>
    ensures { result ≡ Lines.message_after entries line.now }
{
    if entries == 0 {
        return Err(Refusal::no_command());
    }
    message_read(line)?;
    Ok(JournalLine::Message)
}

// `REPORT`
#[tactic(auto, unfolding(crate::specs::Lines::report_read))]
fn report_read(line: &[u8]) -> Result<JournalLine, Refusal>
    ensures { result ≡ Lines.report_read line.now }
{
    if word_count(line) == 1 {
        Ok(JournalLine::Report)
    } else {
        Err(Refusal::other_fields())
    }
}

/// Reads the lines of a journal. One reader is kept from line to line, with the room that reading
/// takes; what it has read before makes no difference.
#[derive(Drop)]
pub struct JournalReader {
    messages: MessageReader,
}

impl JournalReader {
    /// A reader without room. It takes what it needs, and keeps it.
    pub fn new(alloc: Global) -> JournalReader {
        JournalReader {
            messages: MessageReader::new(alloc),
        }
    }

    // What a line says, by its first word.
    fn line_of(
        &mut self,
        entries: u64,
        line: &[u8],
        named: Option<LineWord>,
    ) -> Result<JournalLine, EngineFault>
        ensures { ReadAs (Lines.line_of entries line.now named) result }
    {
        match named {
            Some(LineWord::Entry) => {
                let entry = self.messages.entry_read(entries, line)?;
                Ok(JournalLine::Entry(entry))
            }
            Some(LineWord::Message) => Ok(message_after(entries, line)?),
            Some(LineWord::Report) => Ok(report_read(line)?),
            None => Err(Refusal::no_command().into()),
        }
    }

    /// What a line says that stands after OPEN, not after REPORT, and after so many E lines. It comes
    /// without its line end.
    ///
    /// A line outside the grammar is `Bad` with the first reason: that it isn't UTF-8, its first word,
    /// the number of its words, the first word outside its grammar. The number of the words is judged
    /// by the word of the call or of the message, and by those of its reply, answer or outcome. The
    /// mark ` = ` before a reply counts as a word.
    pub fn line(&mut self, entries: u64, line: &[u8]) -> Result<JournalLine, EngineFault>
        ensures { ReadAs (Lines.line_read entries line.now) result }
    {
        if is_skipped(line) {
            return Ok(JournalLine::Skipped);
        }
        if !is_utf8(line) {
            return Err(Refusal::not_utf8().into());
        }
        self.line_of(entries, line, line_word(word(line, 0)))
    }
}

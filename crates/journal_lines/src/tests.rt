use crate::{EntryLine, JournalLine, JournalReader};
use entry_log::Log;
use std::alloc::Global;
use std::test::Fail;
use upi_base::{EngineFault, Entry, NoMemory, SentList, Why};
use upi_text::entry_text;

mod read;
mod refused;

fn why_word(why: Why) -> &'static str {
    match why {
        Why::Utf8 => "UTF8",
        Why::Word => "WORD",
        Why::Fields => "FIELDS",
        Why::Value => "VALUE",
        Why::Twice | Why::NoBank | Why::NoPsp | Why::NoAccount | Why::Limit | Why::End => "?",
    }
}

// The text with each `'` as `"`.
fn quoted(alloc: Global, text: &str) -> Result<Vec<u8>, Fail> {
    let mut out = Vec::new(alloc);
    for byte in text.as_bytes() {
        out.push(if *byte == b'\'' { b'"' } else { *byte })?;
    }
    Ok(out)
}

// Whether an answer is that the word of this number is refused, and why.
fn is_refusal(answer: &Result<JournalLine, EngineFault>, field: u64, why: &str) -> bool {
    match answer {
        Ok(_line) => false,
        Err(EngineFault::NoMemory) => false,
        Err(EngineFault::Bad { field: f, why: w }) => {
            u64::from(*f) == field && why_word(*w) == why
        }
    }
}

// A row: how many E lines stand before a line, at which word it is refused, why, and the line.
fn split_refused(row: &str) -> Option<(u64, u64, &str, &str)> {
    let (before, rest) = row.split_once(" ")?;
    let (field, rest) = rest.split_once(" ")?;
    let (why, line) = rest.split_once(" ")?;
    let before = upi_text::number(before.as_bytes())?;
    let field = upi_text::number(field.as_bytes())?;
    Some((before, field, why, line))
}

fn refused_so(alloc: Global, reader: &mut JournalReader, row: &str) -> Result<bool, Fail> {
    let (before, field, why, line) = split_refused(row).ok_or("a row")?;
    let line = quoted(alloc, line)?;
    Ok(is_refusal(&reader.line(before, &line), field, why))
}

// The first row of a table of refused lines that doesn't hold.
fn first_taken<'a>(alloc: Global, table: &'a str) -> Result<Option<&'a str>, Fail> {
    let mut reader = JournalReader::new(alloc);
    for row in table.lines() {
        if !refused_so(alloc, &mut reader, row)? {
            return Ok(Some(row));
        }
    }
    Ok(None)
}

// Appends the lines of the first entry of a list, as if it stood at this place.
fn first_entry(alloc: Global, log: &Log, place: u64, out: &mut Vec<u8>) -> Result<(), NoMemory> {
    let Some(entry) = log.entry(1) else {
        return Ok(());
    };
    if entry.sent.len() < 20 {
        entry_text(alloc, &entry, place, 1, out)?;
    }
    Ok(())
}

// What an E line says, written again.
fn rewritten(alloc: Global, line: EntryLine) -> Result<Vec<u8>, NoMemory> {
    let mut out = Vec::new(alloc);
    let place = line.place;
    let entry = Entry {
        call: line.call,
        at: line.at,
        caller: line.caller,
        reply: line.reply,
        sent: SentList::new(alloc),
    };
    let mut log = Log::new(alloc);
    log.append(entry)?;
    first_entry(alloc, &log, place, &mut out)?;
    Ok(out)
}

// What a line says, as a line.
fn said(
    alloc: Global,
    reader: &mut JournalReader,
    before: u64,
    line: &[u8],
) -> Result<Vec<u8>, Fail> {
    match reader.line(before, line)? {
        JournalLine::Skipped => quoted(alloc, "skipped\n"),
        JournalLine::Message => quoted(alloc, "message\n"),
        JournalLine::Report => quoted(alloc, "report\n"),
        JournalLine::Entry(line) => Ok(rewritten(alloc, line)?),
    }
}

// A row: how many E lines stand before a line, what it says, and the line, after `<`.
fn split_read(row: &str) -> Option<(u64, &str, &str)> {
    let (before, rest) = row.split_once(" ")?;
    let (says, line) = rest.split_once("<")?;
    let before = upi_text::number(before.as_bytes())?;
    Some((before, says, line))
}

fn read_so(alloc: Global, reader: &mut JournalReader, row: &str) -> Result<bool, Fail> {
    let (before, says, line) = split_read(row).ok_or("a row")?;
    let mut wanted = quoted(alloc, says)?;
    wanted.push(b'\n')?;
    let line = quoted(alloc, line)?;
    let given = said(alloc, reader, before, &line)?;
    Ok(given.as_slice() == wanted.as_slice())
}

// The first row of a table of lines that doesn't hold.
fn first_misread<'a>(alloc: Global, table: &'a str) -> Result<Option<&'a str>, Fail> {
    let mut reader = JournalReader::new(alloc);
    for row in table.lines() {
        if !read_so(alloc, &mut reader, row)? {
            return Ok(Some(row));
        }
    }
    Ok(None)
}

#[test]
fn lines_say(rt: HostRuntime) -> Result<(), Fail> {
    let alloc = rt.alloc();
    let wrong = first_misread(alloc, read::ENTRIES)?;
    assert!(rt; wrong == None, "{}", wrong.unwrap_or(""));
    let wrong = first_misread(alloc, read::OTHERS)?;
    assert!(rt; wrong == None, "{}", wrong.unwrap_or(""));
    Ok(())
}

#[test]
fn lines_are_refused(rt: HostRuntime) -> Result<(), Fail> {
    let alloc = rt.alloc();
    let wrong = first_taken(alloc, refused::ENTRIES)?;
    assert!(rt; wrong == None, "{}", wrong.unwrap_or(""));
    let wrong = first_taken(alloc, refused::MESSAGES)?;
    assert!(rt; wrong == None, "{}", wrong.unwrap_or(""));
    Ok(())
}

#[test]
fn bytes_are_text(rt: HostRuntime) -> Result<(), Fail> {
    let alloc = rt.alloc();
    let mut reader = JournalReader::new(alloc);
    assert!(rt; is_refusal(&reader.line(0, b"E\xff"), 0, "UTF8"));
    let skipped = said(alloc, &mut reader, 0, b"#\xff")?;
    assert!(rt; skipped.as_slice() == b"skipped\n".as_slice());
    Ok(())
}

//! What is told of a text of a table.
use std::alloc::{AllocError, Global};
use std::test::Fail;
use upi_base::{Input, Message, MsgWhy};
use upi_msg::{read, text};

/// The text with each `'` as `"`.
pub fn push_json(text: &str, out: &mut Vec<u8>) -> Result<(), AllocError> {
    for byte in text.as_bytes() {
        out.push(if *byte == b'\'' { b'"' } else { *byte })?;
    }
    Ok(())
}

/// A text of a table as JSON.
pub fn json(alloc: Global, text: &str) -> Result<Vec<u8>, Fail> {
    let mut out = Vec::new(alloc);
    push_json(text, &mut out)?;
    Ok(out)
}

/// The JSON of a text with one part exchanged.
pub fn exchanged(alloc: Global, base: &str, old: &str, new: &str) -> Result<Vec<u8>, Fail> {
    let (front, behind) = base.split_once(old).ok_or("the part")?;
    let mut out = Vec::new(alloc);
    push_json(front, &mut out)?;
    push_json(new, &mut out)?;
    push_json(behind, &mut out)?;
    Ok(out)
}

/// What is told of a text.
pub fn heard(alloc: Global, text: &[u8]) -> Result<Input, Fail> {
    Ok(read(alloc, text).ok().ok_or("memory")?)
}

fn why_word(why: MsgWhy) -> &'static str {
    match why {
        MsgWhy::Json => "JSON",
        MsgWhy::Root => "ROOT",
        MsgWhy::Missing => "MISSING",
        MsgWhy::Kind => "KIND",
        MsgWhy::Value => "VALUE",
        MsgWhy::Count => "COUNT",
        MsgWhy::Differs => "DIFFERS",
    }
}

/// Whether the fault of a text is this one, at a member of this place.
pub fn is_fault(
    alloc: Global,
    text: &[u8],
    place: &str,
    path: &str,
    why: &str,
) -> Result<bool, Fail> {
    let mut whole = Vec::new(alloc);
    whole.extend_from_slice(place.as_bytes())?;
    whole.extend_from_slice(path.as_bytes())?;
    match heard(alloc, text)? {
        Input::Good(_message) => Ok(false),
        Input::Bad(fault) => Ok(
            fault.path.bytes() == whole.as_slice() && why_word(fault.why) == why,
        ),
    }
}

/// Whether a text is a message.
pub fn is_read(alloc: Global, text: &[u8]) -> Result<bool, Fail> {
    match heard(alloc, text)? {
        Input::Good(_message) => Ok(true),
        Input::Bad(_fault) => Ok(false),
    }
}

/// Whether a message is written so.
pub fn is_written(alloc: Global, message: &Message, expected: &[u8]) -> Result<bool, Fail> {
    let mut out = Vec::new(alloc);
    text(alloc, message, &mut out).ok().ok_or("memory")?;
    Ok(out.as_slice() == expected)
}

/// Whether a text is read, and the message then written so.
pub fn is_read_as(alloc: Global, text: &[u8], expected: &[u8]) -> Result<bool, Fail> {
    match heard(alloc, text)? {
        Input::Good(message) => is_written(alloc, &message, expected),
        Input::Bad(_fault) => Ok(false),
    }
}

// A line of a table: why, where, and a text.
fn split_line(line: &str) -> Option<(&str, &str, &str)> {
    let (why, rest) = line.split_once(" ")?;
    let (path, text) = rest.split_once(" ")?;
    Some((why, path, text))
}

/// The first of these lines that doesn't hold of a message with a part exchanged. Its places are
/// members of `place`.
pub fn first_wrong_line<'a>(
    alloc: Global,
    base: &str,
    place: &str,
    part: &str,
    lines: &'a str,
) -> Result<Option<&'a str>, Fail> {
    for line in lines.lines() {
        let (why, path, new) = split_line(line).ok_or("a line")?;
        let text = exchanged(alloc, base, part, new)?;
        if !is_fault(alloc, &text, place, path, why)? {
            return Ok(Some(line));
        }
    }
    Ok(None)
}

// A part that a table names, and the lines below it.
fn split_part(part: &str) -> Option<(&str, &str)> {
    part.split_once("\n")
}

/// The first line of a table of parts that doesn't hold of a message.
pub fn first_wrong<'a>(
    alloc: Global,
    base: &str,
    place: &str,
    table: &'a str,
) -> Result<Option<&'a str>, Fail> {
    for named in table.split("= ") {
        if let Some((part, lines)) = split_part(named) {
            if let Some(line) = first_wrong_line(alloc, base, place, part, lines)? {
                return Ok(Some(line));
            }
        }
    }
    Ok(None)
}

/// The first line of a table of whole texts that doesn't hold.
pub fn first_wrong_text<'a>(alloc: Global, table: &'a str) -> Result<Option<&'a str>, Fail> {
    for line in table.lines() {
        let (why, path, text) = split_line(line).ok_or("a line")?;
        if !is_fault(alloc, &json(alloc, text)?, "", path, why)? {
            return Ok(Some(line));
        }
    }
    Ok(None)
}

// The first of these forms of a part of a message that isn't read as the whole is written.
fn first_unread_form<'a>(
    alloc: Global,
    base: &str,
    part: &str,
    lines: &'a str,
) -> Result<Option<&'a str>, Fail> {
    let written = json(alloc, base)?;
    for line in lines.lines() {
        if !is_read_as(alloc, &exchanged(alloc, base, part, line)?, &written)? {
            return Ok(Some(line));
        }
    }
    Ok(None)
}

/// The first form of a table of parts that isn't read as the message, which is written as `base`.
pub fn first_unread<'a>(
    alloc: Global,
    base: &str,
    table: &'a str,
) -> Result<Option<&'a str>, Fail> {
    for named in table.split("= ") {
        if let Some((part, lines)) = split_part(named) {
            if let Some(line) = first_unread_form(alloc, base, part, lines)? {
                return Ok(Some(line));
            }
        }
    }
    Ok(None)
}

ghost use Rattle.std.specs.Prelude.{◌<◌};

mod commands;
mod output;
mod reasons;
mod rows;

use super::*;
use reasons::{CALLS, FIRST, SETUP_LINES};
use rows::{LATE_ROWS, OPENED, ROWS};
use std::alloc::Global;
use std::hash::RandomState;
use std::io;
use std::random::RandomSource;
use std::test::Fail;
use upi_base::{Why, write_number};
use upi_io::{MemSink, MemSource};

// Keys that are the same at each run: what is written doesn't depend on them.
struct SameKeys;

impl RandomSource for SameKeys {
    fn fill_bytes(&self, _buf: &mut [u8]) -> io::Result<()> {
        Ok(())
    }
}

const START: &str = "START 2024-01-01T05:30:00+05:30\n";

const EARLY: &str = "START 1970-01-01T05:30:00+05:30\nBANK AAAA\n";

const PAY_TO: &str =
    "{\"ReqPay\":{\"Head\":{\"msgId\":\"A1\",\"orgId\":\"alpha\",\"ts\":\"2024-01-01T05:30:00+05:30\",\"ver\":\"1.0\"},\"Payees\":{\"Payee\":[{\"addr\":\"";

const PAY_VALUE: &str = "\"}]},\"Payer\":{\"Amount\":{\"curr\":\"INR\",\"value\":\"";

const PAY_NAME: &str = "\"},\"addr\":\"ann@alpha\"},\"Txn\":{\"id\":\"";

const PAY_END: &str = "\",\"type\":\"PAY\"}}}";

// Appends a text, and for `%name value payee%` the message of that payment.
fn spell(out: &mut Vec<u8>, text: &str) -> Result<(), Fail> {
    for (place, part) in text.split('%').enumerate() {
        if place % 2 == 0 {
            out.extend_from_slice(part.as_bytes())?;
            continue;
        }
        let mut words = part.split(' ');
        let name = words.next().unwrap_or("");
        let value = words.next().unwrap_or("");
        let payee = words.next().unwrap_or("");
        for piece in [PAY_TO, payee, PAY_VALUE, value, PAY_NAME, name, PAY_END] {
            out.extend_from_slice(piece.as_bytes())?;
        }
    }
    Ok(())
}

// The setup of most scripts, without its OPEN.
fn unopened() -> &'static str {
    OPENED.strip_suffix("OPEN\n").unwrap_or("")
}

// Texts, one behind the other.
fn joined(alloc: Global, texts: &[&str]) -> Result<Vec<u8>, Fail> {
    let mut out = Vec::new(alloc);
    for text in texts {
        spell(&mut out, text)?;
    }
    Ok(out)
}

// How a run is cut into reads and writes of at most so many bytes, and which read and which write fails,
// counted from 1. None fails at 0.
#[derive(Clone, Copy)]
struct Cut {
    piece: usize,
    bad_read: u64,
    bad_write: u64,
}

const WHOLE: Cut = Cut {
    piece: 4096,
    bad_read: 0,
    bad_write: 0,
};

// An input in about forty pieces, none of them shorter than 50 bytes.
fn pieces(input: &[u8]) -> Cut {
    Cut {
        piece: (input.len() / 40).max(50),
        ..WHOLE
    }
}

// How a run ends, what it writes, and how many reads and writes failed.
#[derive(Drop)]
struct Ending {
    status: Status,
    text: Vec<u8>,
    failed: u64,
}

// A run over memory.
fn ran(alloc: Global, input: &[u8], cut: Cut) -> Result<Ending, Fail> {
    let mut list = Vec::new(alloc);
    list.push(String::from_str(alloc, "script")?)?;
    let bad_reads = Vec::from_slice(alloc, &[cut.bad_read])?;
    let bad_writes = Vec::from_slice(alloc, &[cut.bad_write])?;
    let piece = cut.piece.max(1);
    let mut source = MemSource::new(Vec::from_slice(alloc, input)?, piece, bad_reads);
    let room = input.len().saturating_mul(2).max(100_000);
    let mut sink = MemSink::new(alloc, room, piece, bad_writes)?;
    let hashes = RandomState::new(&SameKeys)?;
    let status = run(alloc, hashes, &Words::of(list), &mut source, &mut sink);
    Ok(Ending {
        status,
        text: Vec::from_slice(alloc, sink.taken())?,
        failed: source.faults().saturating_add(sink.faults()),
    })
}

// How many bytes are written for no line of an input, for the first, for the first two, and so on: a line
// that is no text is refused behind each of them.
fn line_ends(alloc: Global, input: &[u8]) -> Result<Vec<usize>, Fail> {
    let mut out = Vec::new(alloc);
    let mut before = Vec::new(alloc);
    out.push(0)?;
    for &c in input {
        before.push(c)?;
        if c == b'\n' {
            let mut front = Vec::from_slice(alloc, &before)?;
            front.push(b'\xff')?;
            out.push(ran(alloc, &front, WHOLE)?.text.len())?;
        }
    }
    Ok(out)
}

// How many whole lines of an input so many reads give, and how many bytes are written for them. A last line
// without a line end is whole once a read has told the end; what the end writes isn't counted.
fn whole_lines(ends: &[usize], whole: &Ending, input: &[u8], piece: usize, reads: u64) -> usize {
    let given = (reads as usize).saturating_mul(piece);
    if given >= input.len().saturating_add(piece) {
        return whole.text.len();
    }
    let lines = input.iter().take(given).filter(|c| **c == b'\n').count();
    ends.get(lines).copied().unwrap_or(0)
}

// Lets each read fail in turn, and then none. Where one fails, exactly what the lines read before it write
// is written; where none does, all is as ever. Answers the first read of which this isn't so.
fn read_not_told(alloc: Global, input: &[u8], whole: &Ending) -> Result<Option<u64>, Fail> {
    let ends = line_ends(alloc, input)?;
    let piece = pieces(input).piece;
    for bad_read in 1..1000 {
        let cut = Cut {
            bad_read,
            ..pieces(input)
        };
        let ending = ran(alloc, input, cut)?;
        let is_right = if ending.failed == 0 {
            bad_read > 1 && ending.status == whole.status && ending.text == whole.text
        } else {
            ending.status == Status::ReadFault
                && whole.text.starts_with(&ending.text)
                && ending.text.len() == whole_lines(&ends, whole, input, piece, bad_read - 1)
        };
        if !is_right {
            return Ok(Some(bad_read));
        }
        if ending.failed == 0 {
            return Ok(None);
        }
    }
    Ok(Some(1000))
}

// Lets each write fail in turn, and then none. Where one fails, what went out before is written, and not
// all; where none does, all is as ever. Answers the first write of which this isn't so.
fn write_not_told(alloc: Global, input: &[u8], whole: &Ending) -> Result<Option<u64>, Fail> {
    for bad_write in 1..1000 {
        let ending = ran(
            alloc,
            input,
            Cut {
                bad_write,
                ..pieces(input)
            },
        )?;
        let is_right = if ending.failed == 0 {
            (bad_write > 1 || whole.text.is_empty())
                && ending.status == whole.status
                && ending.text == whole.text
        } else {
            ending.status == Status::WriteFault
                && whole.text.starts_with(&ending.text)
                && ending.text.len() < whole.text.len()
                && (bad_write > 1 || ending.text.is_empty())
        };
        if !is_right {
            return Ok(Some(bad_write));
        }
        if ending.failed == 0 {
            return Ok(None);
        }
    }
    Ok(Some(1000))
}

// The first read and the first write whose failure isn't told as it must be, if there are any.
fn faults_not_told(alloc: Global, input: &[u8]) -> Result<(Option<u64>, Option<u64>), Fail> {
    let whole = ran(alloc, input, WHOLE)?;
    Ok((
        read_not_told(alloc, input, &whole)?,
        write_not_told(alloc, input, &whole)?,
    ))
}

// A name, a setup, a script behind it, and what is written for the script.
type Row = (&'static str, &'static str, &'static str, &'static str);

// Runs scripts, cut in several ways and with each fault. Answers the name of the first that doesn't write
// what it should.
fn wrong_row(alloc: Global, rows: &[Row]) -> Result<Option<&'static str>, Fail> {
    for &(name, setup, script, written) in rows {
        let input = joined(alloc, &[setup, script])?;
        let output = joined(alloc, &[setup, written])?;
        for piece in [4096, 7, 1] {
            let ending = ran(alloc, &input, Cut { piece, ..WHOLE })?;
            if ending.status != Status::Done || ending.text != output {
                return Ok(Some(name));
            }
        }
        if faults_not_told(alloc, &input)? != (None, None) {
            return Ok(Some(name));
        }
    }
    Ok(None)
}

#[test]
fn scripts_write_their_rows(rt: HostRuntime) -> Result<(), Fail> {
    assert_eq!(rt; wrong_row(rt.alloc(), &ROWS)?, None);
    Ok(())
}

#[test]
fn scripts_of_losses_write_their_rows(rt: HostRuntime) -> Result<(), Fail> {
    assert_eq!(rt; wrong_row(rt.alloc(), &LATE_ROWS)?, None);
    Ok(())
}

// How a run ends, and whether what it wrote is this text.
fn ran_to(alloc: Global, input: &[u8], output: &[u8]) -> Result<(Status, bool), Fail> {
    let ending = ran(alloc, input, WHOLE)?;
    Ok((ending.status, ending.text.as_slice() == output))
}

// Where two reasons hold for a line, the first counts. What the lines before it write is written.
#[test]
fn lines_are_refused_for_their_first_reason(rt: HostRuntime) -> Result<(), Fail> {
    let alloc = rt.alloc();
    let closed = "E 1 0 1704067200 CLOSE = CLOSED\n";
    let setup = unopened();
    let parts = [
        ("", "# nothing\n\n", "", FIRST.as_slice()),
        (setup, "", "", SETUP_LINES.as_slice()),
        (OPENED, "", "", CALLS.as_slice()),
        (OPENED, "CLOSE\n", closed, CALLS.as_slice()),
    ];
    for (before, more, written, lines) in parts {
        let front = joined(alloc, &[before, more])?;
        let output = joined(alloc, &[before, written])?;
        let number = front.split(|c| *c == b'\n').count() as u64;
        for &(text, field, why) in lines {
            let input = joined(alloc, &[before, more, text])?;
            let bad = Status::BadLine {
                line: number,
                field,
                why,
            };
            assert_eq!(rt; ran_to(alloc, &input, &output)?, (bad, true), "{text}");
            assert_eq!(rt; faults_not_told(alloc, &input)?, (None, None), "{text}");
        }
    }
    Ok(())
}

// What isn't UTF-8 is refused for that, unless it is passed over.
#[test]
fn bytes_that_are_no_text(rt: HostRuntime) -> Result<(), Fail> {
    let alloc = rt.alloc();
    let setup = unopened();
    for (before, output, line) in [("", "", 2), (setup, setup, 11), (OPENED, OPENED, 12)] {
        let mut input = Vec::from_slice(alloc, b"#\xff\n")?;
        input.extend_from_slice(before.as_bytes())?;
        input.extend_from_slice(b"BANK \xff\xfe x\n")?;
        let bad = Status::BadLine {
            line,
            field: 0,
            why: Why::Utf8,
        };
        assert_eq!(rt; ran_to(alloc, &input, output.as_bytes())?, (bad, true));
        assert_eq!(rt; faults_not_told(alloc, &input)?, (None, None));
    }
    Ok(())
}

#[test]
fn an_input_that_ends_too_soon(rt: HostRuntime) -> Result<(), Fail> {
    let alloc = rt.alloc();
    let setup = unopened();
    let rows = [
        ("", "", 1, 0, Why::End),
        ("\n# nothing", "", 3, 0, Why::End),
        ("START 2024-01-01T00:00:00Z\n", START, 2, 0, Why::End),
        (setup, setup, 10, 0, Why::End),
        (
            "START 1970-01-01T00:00:00.5Z\r\nBANK AAAA\r\nPS",
            EARLY,
            3,
            1,
            Why::Word,
        ),
    ];
    for (input, output, line, field, why) in rows {
        let bad = Status::BadLine { line, field, why };
        assert_eq!(rt;
            ran_to(alloc, input.as_bytes(), output.as_bytes())?,
            (bad, true),
            "{input}"
        );
        assert_eq!(rt;
            faults_not_told(alloc, input.as_bytes())?,
            (None, None),
            "{input}"
        );
    }
    Ok(())
}

// A line that ends with a name of its own for each number: two letters, the first of them `a` or `A`.
fn push_named(out: &mut Vec<u8>, start: &str, letter: u8, number: u8) -> Result<(), Fail> {
    out.extend_from_slice(start.as_bytes())?;
    out.push(letter.saturating_add(number / 26))?;
    out.push(letter.saturating_add(number % 26))?;
    out.push(b'\n')?;
    Ok(())
}

// The next name is one too many then, and a name that was given before is refused for that.
#[test]
fn at_most_64_banks_and_64_psps(rt: HostRuntime) -> Result<(), Fail> {
    let alloc = rt.alloc();
    for (start, letter) in [("BANK AA", b'A'), ("PSP aa", b'a')] {
        let mut output = Vec::from_slice(alloc, START.as_bytes())?;
        for number in 0..64u8 {
            push_named(&mut output, start, letter, number)?;
        }
        for (number, field, why) in [(64, 1, Why::Limit), (63, 2, Why::Twice)] {
            let mut input = Vec::from_slice(alloc, &output)?;
            push_named(&mut input, start, letter, number)?;
            let bad = Status::BadLine {
                line: 66,
                field,
                why,
            };
            assert_eq!(rt; ran_to(alloc, &input, &output)?, (bad, true), "{start}");
            assert_eq!(rt; faults_not_told(alloc, &input)?, (None, None), "{start}");
        }
    }
    Ok(())
}

// A line with a number in it.
fn push_numbered(out: &mut Vec<u8>, start: &str, number: u64, end: &str) -> Result<(), Fail> {
    out.extend_from_slice(start.as_bytes())?;
    write_number(number, out)?;
    out.extend_from_slice(end.as_bytes())?;
    Ok(())
}

// As many accounts and addresses as there may be, as they are written.
fn all_listed(alloc: Global) -> Result<Vec<u8>, Fail> {
    let mut out = joined(alloc, &[START, "BANK AAAA\nPSP alpha\n"])?;
    for number in 0..65_536u64 {
        push_numbered(&mut out, "ACCOUNT AAAA/", number, " 0.00\n")?;
    }
    for number in 0..65_536u64 {
        push_numbered(&mut out, "ADDR ", number, "@alpha AAAA/0 YES\n")?;
    }
    Ok(out)
}

// The next one is one too many then, and one that was given before is refused for that.
#[test]
fn at_most_65536_accounts_and_65536_addresses(rt: HostRuntime) -> Result<(), Fail> {
    let alloc = rt.alloc();
    let output = all_listed(alloc)?;
    let lines = [
        ("ACCOUNT AAAA/65536 0", 1, Why::Limit),
        ("ACCOUNT AAAA/65535 0", 2, Why::Twice),
        ("ADDR 65536@alpha AAAA/0 YES", 1, Why::Limit),
        ("ADDR 65535@alpha AAAA/0 YES", 2, Why::Twice),
    ];
    for (line, field, why) in lines {
        let mut input = Vec::from_slice(alloc, &output)?;
        input.extend_from_slice(line.as_bytes())?;
        let bad = Status::BadLine {
            line: 131_076,
            field,
            why,
        };
        assert_eq!(rt; ran_to(alloc, &input, &output)?, (bad, true), "{line}");
    }
    Ok(())
}

// TICK ends at the last moment of all, also behind a CLOSE.
#[test]
fn no_moment_behind_the_last(rt: HostRuntime) -> Result<(), Fail> {
    let alloc = rt.alloc();
    let start = "START 9892-03-08T17:56:30+05:30\nOPEN\n";
    let closed = "E 1 0 249999999999 CLOSE = CLOSED\n";
    for (line, more, written) in [(4, "TICK 9\n", ""), (5, "TICK 9\nCLOSE\n", closed)] {
        let output = joined(alloc, &[start, written])?;
        for tick in ["TICK 2\n", "TICK 100000000\n"] {
            let input = joined(alloc, &[start, more, tick])?;
            let bad = Status::BadLine {
                line,
                field: 2,
                why: Why::Value,
            };
            assert_eq!(rt; ran_to(alloc, &input, &output)?, (bad, true), "{tick}");
        }
        let input = joined(alloc, &[start, more, "TICK 1\nSTOP\n"])?;
        let bad = Status::BadLine {
            line: line + 1,
            field: 1,
            why: Why::Word,
        };
        assert_eq!(rt; ran_to(alloc, &input, &output)?, (bad, true));
    }
    Ok(())
}

// Lines that are skipped count too.
#[test]
fn at_most_16777216_lines(rt: HostRuntime) -> Result<(), Fail> {
    let alloc = rt.alloc();
    let input = vec![in alloc; b'\n'; 16_777_217]?;
    let bad = Status::BadLine {
        line: 16_777_217,
        field: 0,
        why: Why::Limit,
    };
    assert_eq!(rt; ran_to(alloc, &input, b"")?, (bad, true));
    Ok(())
}

// Behind START, `#` and so many bytes, and then a line that is no command.
#[test]
fn long_lines(rt: HostRuntime) -> Result<(), Fail> {
    let alloc = rt.alloc();
    let bad = Status::BadLine {
        line: 3,
        field: 1,
        why: Why::Word,
    };
    for (count, ends) in [(65_535, bad), (65_536, Status::TooLong { line: 2 })] {
        let mut input = Vec::from_slice(alloc, START.as_bytes())?;
        input.push(b'#')?;
        for _ in 0..count {
            input.push(b'x')?;
        }
        input.extend_from_slice(b"\nSTOP\n")?;
        assert_eq!(rt; ran_to(alloc, &input, START.as_bytes())?, (ends, true));
        assert_eq!(rt; faults_not_told(alloc, &input)?, (None, None));
    }
    Ok(())
}

// How a run ends at these words, and how much it writes.
fn called(alloc: Global, words: &[&str]) -> Result<(Status, usize), Fail> {
    let mut list = Vec::new(alloc);
    for word in words {
        list.push(String::from_str(alloc, word)?)?;
    }
    let input = Vec::from_slice(alloc, OPENED.as_bytes())?;
    let mut source = MemSource::new(input, 1, Vec::new(alloc));
    let mut sink = MemSink::new(alloc, 1000, 1, Vec::new(alloc))?;
    let hashes = RandomState::new(&SameKeys)?;
    let status = run(alloc, hashes, &Words::of(list), &mut source, &mut sink);
    Ok((status, sink.taken().len()))
}

#[test]
fn other_words_are_no_command(rt: HostRuntime) -> Result<(), Fail> {
    let rows = [
        [].as_slice(),
        &[""],
        &["Script"],
        &["scrip"],
        &["scripts"],
        &["script", ""],
        &["script", "script"],
        &["gen", "5"],
    ];
    for words in rows {
        assert_eq!(rt; called(rt.alloc(), words)?, (Status::Usage, 0));
    }
    Ok(())
}

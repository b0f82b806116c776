ghost use Rattle.std.specs.Prelude.{◌≡◌, ◌≢◌, ◌<◌, Some, Ok, Err, IfOk, IsOk};
ghost use Rattle.upi_io.specs.Lines.{raw_lines, first_of};

use super::*;
use std::alloc::Global;
use std::io::BufWriter;
use std::test::Fail;
use upi_base::{AuditWhy, NoMemory, Why};

// A source over these bytes. The calls listed fail.
fn source(alloc: Global, bytes: &[u8], piece: usize, fail_at: &[u64]) -> Result<MemSource, Fail>
    requires { 0 < piece }
{
    let bytes = Vec::from_slice(alloc, bytes)?;
    let fail_at = Vec::from_slice(alloc, fail_at)?;
    Ok(MemSource::new(bytes, piece, fail_at))
}

#[test]
fn lines_in_pieces_of_one_byte(rt: HostRuntime) -> Result<(), Fail> {
    let alloc = rt.alloc();
    let mut source = source(alloc, b"a\r\n\nb", 1, &[])?;
    let mut reader = LineReader::new();
    let mut line = Vec::new(alloc);
    for want in [b"a".as_slice(), b"".as_slice(), b"b".as_slice()] {
        assert_eq!(rt; reader.next(&mut source, &mut line), Ok(Line::Got));
        assert_eq!(rt; line.as_slice(), want);
    }
    assert_eq!(rt; reader.next(&mut source, &mut line), Ok(Line::End));
    assert_eq!(rt; reader.next(&mut source, &mut line), Ok(Line::End));
    Ok(())
}

#[test]
fn only_one_cr_before_an_lf_is_dropped(rt: HostRuntime) -> Result<(), Fail> {
    let alloc = rt.alloc();
    let mut source = source(alloc, b"a\r\r\n\rb\nc\r", 3, &[])?;
    let mut reader = LineReader::new();
    let mut line = Vec::new(alloc);
    for want in [b"a\r".as_slice(), b"\rb".as_slice(), b"c\r".as_slice()] {
        assert_eq!(rt; reader.next(&mut source, &mut line), Ok(Line::Got));
        assert_eq!(rt; line.as_slice(), want);
    }
    assert_eq!(rt; reader.next(&mut source, &mut line), Ok(Line::End));
    Ok(())
}

// Behind each line, whether a further whole one was read: all bytes come at once, and no LF ends the last line.
#[test]
fn whole_lines_that_are_held(rt: HostRuntime) -> Result<(), Fail> {
    let alloc = rt.alloc();
    let mut source = source(alloc, b"a\n\nb\nc", 100, &[])?;
    let mut reader = LineReader::new();
    let mut line = Vec::new(alloc);
    assert!(rt; !reader.holds_line());
    for holds in [true, true, false, false] {
        assert_eq!(rt; reader.next(&mut source, &mut line), Ok(Line::Got));
        assert_eq!(rt; reader.holds_line(), holds);
    }
    assert_eq!(rt; reader.next(&mut source, &mut line), Ok(Line::End));
    assert!(rt; !reader.holds_line());
    Ok(())
}

// What the reader answers for the second line, where that is `#` and so many bytes.
fn second_line(alloc: Global, bytes: usize) -> Result<[Result<Line, LineFault>; 2], Fail> {
    let mut text = Vec::from_slice(alloc, b"one\n#")?;
    for _ in 0..bytes {
        text.push(b'x')?;
    }
    text.extend_from_slice(b"\nlast\n")?;
    let mut source = MemSource::new(text, 1000, Vec::new(alloc));
    let mut reader = LineReader::new();
    let mut line = Vec::new(alloc);
    let _ = reader.next(&mut source, &mut line);
    let second = reader.next(&mut source, &mut line);
    let third = reader.next(&mut source, &mut line);
    Ok([second, third])
}

#[test]
fn long_lines(rt: HostRuntime) -> Result<(), Fail> {
    let alloc = rt.alloc();
    let got = Ok(Line::Got);
    let long = Err(LineFault::TooLong { at: 2 });
    assert_eq!(rt; second_line(alloc, 65_535)?, [got, got]);
    assert_eq!(rt; second_line(alloc, 65_536)?, [long, long]);
    Ok(())
}

#[test]
fn a_fault_stays(rt: HostRuntime) -> Result<(), Fail> {
    let alloc = rt.alloc();
    let mut source = source(alloc, b"a\nb\nc\n", 3, &[2])?;
    let mut reader = LineReader::new();
    let mut line = Vec::new(alloc);
    assert_eq!(rt; reader.next(&mut source, &mut line), Ok(Line::Got));
    for _ in 0..3 {
        assert_eq!(rt;
            reader.next(&mut source, &mut line),
            Err(LineFault::ReadFault)
        );
        assert_eq!(rt; source.faults(), 1);
    }
    Ok(())
}

#[test]
fn a_read_fault_loses_nothing(rt: HostRuntime) -> Result<(), Fail> {
    let alloc = rt.alloc();
    let mut source = source(alloc, b"one\ntwo\nthree\n", 6, &[2])?;
    let mut line = Vec::new(alloc);
    let mut reader = LineReader::new();
    assert_eq!(rt; reader.next(&mut source, &mut line), Ok(Line::Got));
    assert_eq!(rt;
        reader.next(&mut source, &mut line),
        Err(LineFault::ReadFault)
    );
    assert_eq!(rt; line.as_slice(), b"tw".as_slice());
    let mut reader = LineReader::new();
    for want in [b"o".as_slice(), b"three".as_slice()] {
        assert_eq!(rt; reader.next(&mut source, &mut line), Ok(Line::Got));
        assert_eq!(rt; line.as_slice(), want);
    }
    assert_eq!(rt; reader.next(&mut source, &mut line), Ok(Line::End));
    Ok(())
}

// The first line of a source over memory that lists no call. It is read a byte at a time.
fn line_of_memory(alloc: Global, bytes: Vec<u8>, line: &mut Vec<u8>) -> Result<Line, LineFault>
    ensures { result ≢ Err LineFault.ReadFault }
{
    let mut source = MemSource::new(bytes, 1, Vec::new(alloc));
    let mut reader = LineReader::new();
    reader.next(&mut source, line)
}

// Writes bytes into memory that has room for them, a byte at a time.
fn write_to_memory(alloc: Global, bytes: &[u8]) -> Result<Result<(), Wrote>, NoMemory>
    ensures { IfOk result (λ wrote. IsOk wrote) }
{
    let mut sink = MemSink::new(alloc, bytes.len(), 1, Vec::new(alloc))?;
    let wrote = write_all(&mut sink, bytes);
    Ok(wrote)
}

#[test]
fn memory_that_never_fails(rt: HostRuntime) -> Result<(), Fail> {
    let alloc = rt.alloc();
    let mut line = Vec::new(alloc);
    let bytes = Vec::from_slice(alloc, b"abc")?;
    assert_eq!(rt; line_of_memory(alloc, bytes, &mut line), Ok(Line::Got));
    assert_eq!(rt; write_to_memory(alloc, b"abc")?, Ok(()));
    Ok(())
}

#[test]
fn a_sink_fails_when_it_is_full(rt: HostRuntime) -> Result<(), Fail> {
    let alloc = rt.alloc();
    let mut sink = MemSink::new(alloc, 7, 3, Vec::new(alloc))?;
    assert_eq!(rt; write_all(&mut sink, b"abcd"), Ok(()));
    assert_eq!(rt; write_all(&mut sink, b"efgh"), Err(Wrote { n: 3 }));
    assert_eq!(rt; sink.taken(), b"abcdefg".as_slice());
    assert_eq!(rt; sink.faults(), 1);
    Ok(())
}

#[test]
fn a_sink_fails_at_a_listed_call(rt: HostRuntime) -> Result<(), Fail> {
    let alloc = rt.alloc();
    let mut sink = MemSink::new(alloc, 100, 2, Vec::from_slice(alloc, &[3])?)?;
    assert_eq!(rt; write_all(&mut sink, b"abc"), Ok(()));
    assert_eq!(rt; write_all(&mut sink, b"def"), Err(Wrote { n: 0 }));
    assert_eq!(rt; write_all(&mut sink, b"def"), Ok(()));
    assert_eq!(rt; sink.taken(), b"abcdef".as_slice());
    Ok(())
}

// The first line of bytes, read from a slice, of which the library tells its bytes.
fn first_line(bytes: &[u8], line: &mut Vec<u8>) -> Result<Line, LineFault>
    ensures { result ≡ Ok Line.Got → first_of 0 (raw_lines bytes.now) ≡ Ok (Some line.new.items) }
{
    let mut source = Reading::new(bytes);
    let mut reader = LineReader::new();
    reader.next(&mut source, line)
}

#[test]
fn a_reader_of_std(rt: HostRuntime) -> Result<(), Fail> {
    let mut source = Reading::new(b"ab\ncd".as_slice());
    let mut reader = LineReader::new();
    let mut line = Vec::new(rt.alloc());
    assert_eq!(rt; reader.next(&mut source, &mut line), Ok(Line::Got));
    assert_eq!(rt; line.as_slice(), b"ab".as_slice());
    assert_eq!(rt; reader.next(&mut source, &mut line), Ok(Line::Got));
    assert_eq!(rt; line.as_slice(), b"cd".as_slice());
    assert_eq!(rt; reader.next(&mut source, &mut line), Ok(Line::End));
    Ok(())
}

#[test]
fn a_line_of_a_slice(rt: HostRuntime) -> Result<(), Fail> {
    let mut line = Vec::new(rt.alloc());
    assert_eq!(rt; first_line(b"ab\ncd", &mut line), Ok(Line::Got));
    assert_eq!(rt; line.as_slice(), b"ab".as_slice());
    Ok(())
}

#[test]
fn a_writer_of_std(rt: HostRuntime) -> Result<(), Fail> {
    let mut room = [0; 5];
    let mut sink = Writing::new(room.as_mut_slice());
    assert_eq!(rt; write_all(&mut sink, b"abc"), Ok(()));
    assert_eq!(rt; write_all(&mut sink, b"def"), Err(Wrote { n: 2 }));
    Ok(())
}

#[test]
fn a_writer_that_keeps_bytes_back(rt: HostRuntime) -> Result<(), Fail> {
    let alloc = rt.alloc();
    let mut written = Vec::new(alloc);
    let mut sink = Writing::new(BufWriter::new(alloc, &mut written)?);
    assert_eq!(rt; write_all(&mut sink, b"abc"), Ok(()));
    assert!(rt; sink.finish());
    drop(sink);
    assert_eq!(rt; written.as_slice(), b"abc".as_slice());
    Ok(())
}

#[test]
fn statuses(rt: HostRuntime) -> Result<(), Fail> {
    let alloc = rt.alloc();
    let bad = Status::BadLine {
        line: 12,
        field: 3,
        why: Why::NoAccount,
    };
    let wrong = Status::AuditNo {
        entry: 4,
        why: AuditWhy::Reply,
    };
    let rows = [
        (Status::Done, 0, b"".as_slice()),
        (Status::Usage, 2, b"upi: usage\n".as_slice()),
        (bad, 3, b"upi: line 12: word 3: NOACCOUNT\n".as_slice()),
        (
            Status::TooLong { line: 7 },
            3,
            b"upi: line 7: too long\n".as_slice(),
        ),
        (Status::ReadFault, 4, b"upi: read fault\n".as_slice()),
        (Status::WriteFault, 5, b"upi: write fault\n".as_slice()),
        (Status::NoMemory, 6, b"upi: no memory\n".as_slice()),
        (wrong, 7, b"upi: audit: entry 4: REPLY\n".as_slice()),
    ];
    for (status, code, want) in rows {
        let mut line = Vec::new(alloc);
        status.write_line(&mut line)?;
        assert_eq!(rt; status.code(), code);
        assert_eq!(rt; line.as_slice(), want);
    }
    Ok(())
}

#[test]
fn reasons(rt: HostRuntime) -> Result<(), Fail> {
    let alloc = rt.alloc();
    let rows = [
        (Why::Utf8, "UTF8"),
        (Why::Word, "WORD"),
        (Why::Fields, "FIELDS"),
        (Why::Value, "VALUE"),
        (Why::Twice, "TWICE"),
        (Why::NoBank, "NOBANK"),
        (Why::NoPsp, "NOPSP"),
        (Why::NoAccount, "NOACCOUNT"),
        (Why::Limit, "LIMIT"),
        (Why::End, "END"),
    ];
    for (why, name) in rows {
        let status = Status::BadLine {
            line: 1,
            field: 0,
            why,
        };
        let mut line = Vec::new(alloc);
        status.write_line(&mut line)?;
        let want = format!(in alloc; "upi: line 1: word 0: {name}\n")?;
        assert_eq!(rt; line.as_slice(), want.as_bytes());
    }
    Ok(())
}

#[test]
fn words(rt: HostRuntime) -> Result<(), Fail> {
    let alloc = rt.alloc();
    let mut list = Vec::new(alloc);
    list.push(String::from_str(alloc, "script")?)?;
    let words = Words::of(list);
    assert!(rt; words.is_one_word("script"));
    assert!(rt; !words.is_one_word("scrip"));
    assert!(rt; !Words::of(Vec::new(alloc)).is_one_word("script"));
    Ok(())
}

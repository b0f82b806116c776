// Commands that write at their end: audits and loads.
use super::*;
use upi_base::AuditWhy;

// What is written of a switch that closes at once, behind the setup.
const CLOSED: &str = "\
    E 1 0 1704067200 CLOSE = CLOSED\n\
    REPORT\n\
    row,id,bank,detail,amount,code\n\
    NET,,AAAA,,0.00,\n\
    NET,,BBBB,,0.00,\n\
    BALANCE,1,AAAA,,100.00,\n\
    BALANCE,1,BBBB,,5.00,\n\
    FLIGHT,,,,0.00,\n";

// The line of the load of one payment from seed 1, worked out by hand.
const SUMMED_UP: &str =
    "LOAD 1 1 SUCCESS 1 FAILURE 0 DEEMED 0 ITEMS 0 FLIGHT 0.00 ENTRIES 14 MESSAGES 10\n";

// A run of the words that single spaces part, over memory.
fn asked(alloc: Global, words: &str, input: &[u8], cut: Cut) -> Result<Ending, Fail> {
    let mut list = Vec::new(alloc);
    for word in words.split(' ') {
        list.push(String::from_str(alloc, word)?)?;
    }
    let bad_reads = Vec::from_slice(alloc, &[cut.bad_read])?;
    let bad_writes = Vec::from_slice(alloc, &[cut.bad_write])?;
    let piece = cut.piece.max(1);
    let mut source = MemSource::new(Vec::from_slice(alloc, input)?, piece, bad_reads);
    let mut sink = MemSink::new(alloc, 100_000, piece, bad_writes)?;
    let hashes = RandomState::new(&SameKeys)?;
    let status = run(alloc, hashes, &Words::of(list), &mut source, &mut sink);
    Ok(Ending {
        status,
        text: Vec::from_slice(alloc, sink.taken())?,
        failed: source.faults().saturating_add(sink.faults()),
    })
}

// Lets each read fail in turn, and then none. Answers the first at which the status isn't that of a read
// fault, or anything is written.
fn read_untold(
    alloc: Global,
    words: &str,
    input: &[u8],
    whole: &Ending,
) -> Result<Option<u64>, Fail> {
    for bad_read in 1..1000 {
        let cut = Cut {
            piece: 50,
            bad_read,
            bad_write: 0,
        };
        let ending = asked(alloc, words, input, cut)?;
        if ending.failed == 0 {
            let is_right = ending.status == whole.status && ending.text == whole.text;
            return Ok(if is_right { None } else { Some(bad_read) });
        }
        if ending.status != Status::ReadFault || !ending.text.is_empty() {
            return Ok(Some(bad_read));
        }
    }
    Ok(Some(1000))
}

// Lets each write of at most `piece` bytes fail in turn, and then none. Answers the first at which the status
// isn't that of a write fault, or the pieces before aren't what is written.
fn write_untold(
    alloc: Global,
    words: &str,
    input: &[u8],
    piece: usize,
    whole: &Ending,
) -> Result<Option<u64>, Fail> {
    for bad_write in 1..1000 {
        let cut = Cut {
            piece,
            bad_read: 0,
            bad_write,
        };
        let ending = asked(alloc, words, input, cut)?;
        if ending.failed == 0 {
            let is_right = ending.status == whole.status && ending.text == whole.text;
            return Ok(if is_right { None } else { Some(bad_write) });
        }
        let front = whole.text.starts_with(&ending.text) && ending.text.len() < whole.text.len();
        if ending.status != Status::WriteFault || !front {
            return Ok(Some(bad_write));
        }
    }
    Ok(Some(1000))
}

// How an audit of a journal behind the setup ends, where that is told at each fault as it must be.
fn audited(alloc: Global, journal: &str, written: &str) -> Result<Option<Status>, Fail> {
    let input = joined(alloc, &[OPENED, journal])?;
    let whole = asked(alloc, "audit", &input, WHOLE)?;
    let is_told = whole.text.as_slice() == written.as_bytes()
        && read_untold(alloc, "audit", &input, &whole)?.is_none()
        && write_untold(alloc, "audit", &input, 3, &whole)?.is_none();
    Ok(if is_told { Some(whole.status) } else { None })
}

// A journal that isn't right.
fn no(entry: u64, why: AuditWhy) -> Status {
    Status::AuditNo { entry, why }
}

#[test]
fn audits(rt: HostRuntime) -> Result<(), Fail> {
    let too_soon = Status::BadLine {
        line: 12,
        field: 0,
        why: Why::End,
    };
    let no_line = Status::BadLine {
        line: 11,
        field: 1,
        why: Why::Word,
    };
    let rows = [
        (CLOSED, "YES 1\n", Status::Done),
        ("REPORT\n", "NO 0 NOCLOSE\n", no(0, AuditWhy::NoClose)),
        (
            "E 1 0 1704067200 CLOSE = OK\nREPORT\n",
            "NO 1 REPLY\n",
            no(1, AuditWhy::Reply),
        ),
        (
            "E 1 0 1704067200 CLOSE = CLOSED\nREPORT\nrow,id,bank,detail,amount,code\n",
            "NO 2 REPORT\n",
            no(2, AuditWhy::Report),
        ),
        ("E 1 0 1704067200 CLOSE = CLOSED\n", "", too_soon),
        ("STOP\nREPORT\n", "", no_line),
    ];
    for (journal, written, status) in rows {
        assert!(rt;
            audited(rt.alloc(), journal, written)? == Some(status),
            "{journal}"
        );
    }
    Ok(())
}

// Whether a command that reads nothing writes this much from the front, and tells each fault.
fn is_written(alloc: Global, words: &str, front: &str, lines: usize) -> Result<bool, Fail> {
    let whole = asked(alloc, words, b"no script\n", WHOLE)?;
    let piece = (whole.text.len() / 20).max(1);
    Ok(
        whole.status == Status::Done
            && whole.text.starts_with(front.as_bytes())
            && whole.text.iter().filter(|c| **c == b'\n').count() == lines
            && read_untold(alloc, words, b"no script\n", &whole)?.is_none()
            && write_untold(alloc, words, b"no script\n", piece, &whole)?.is_none(),
    )
}

#[test]
fn loads(rt: HostRuntime) -> Result<(), Fail> {
    let alloc = rt.alloc();
    let setup = "START 2024-01-01T05:30:00+05:30\nBANK AAAA\nBANK BBBB\nBANK CCCC\n";
    assert!(rt; is_written(alloc, "gen 1 1", setup, 91)?);
    assert!(rt; is_written(alloc, "gen 3 2147483647", setup, 93)?);
    assert!(rt; is_written(alloc, "load 1 1", SUMMED_UP, 1)?);
    Ok(())
}

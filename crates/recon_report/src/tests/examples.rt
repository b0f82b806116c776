//! The reports of the examples: what a reader of comma-separated values finds in them, field by field,
//! and that their transactions give them.
use super::{held, row, text, unmoved};
use csv::{ByteRecord, ReaderBuilder};
use std::alloc::Global;
use std::test::Fail;
use upi_base::{Code, Outcome};

const COLLECT_APPROVED: &str = "row,id,bank,detail,amount,code
OUTCOME,C1,,SUCCESS,30.00,
SETTLE,C1,AAAA,PAID,30.00,
SETTLE,C1,BBBB,RECEIVED,30.00,
NET,,AAAA,,-30.00,
NET,,BBBB,,30.00,
BALANCE,1,AAAA,,70.00,
BALANCE,1,BBBB,,35.00,
FLIGHT,,,,0.00,
";

const COLLECT_TOO_LATE: &str = "row,id,bank,detail,amount,code
OUTCOME,C1,,FAILURE,30.00,EXPIRED
NET,,AAAA,,0.00,
NET,,BBBB,,0.00,
BALANCE,1,AAAA,,100.00,
BALANCE,1,BBBB,,5.00,
FLIGHT,,,,0.00,
";

const CREDIT_DEEMED: &str = "row,id,bank,detail,amount,code
OUTCOME,T1,,DEEMED,30.00,
SETTLE,T1,AAAA,PAID,30.00,
SETTLE,T1,BBBB,RECEIVED,30.00,
NET,,AAAA,,-30.00,
NET,,BBBB,,30.00,
RECON,T1,BBBB,,30.00,
BALANCE,1,AAAA,,70.00,
BALANCE,1,BBBB,,5.00,
FLIGHT,,,,30.00,
";

const DEBIT_REVERSED: &str = "row,id,bank,detail,amount,code
OUTCOME,T1,,FAILURE,30.00,DEBITLATE
NET,,AAAA,,0.00,
NET,,BBBB,,0.00,
BALANCE,1,AAAA,,100.00,
BALANCE,1,BBBB,,5.00,
FLIGHT,,,,0.00,
";

// One payment, and one that comes twice.
const ONE_PAYMENT: &str = "row,id,bank,detail,amount,code
OUTCOME,T1,,SUCCESS,30.00,
SETTLE,T1,AAAA,PAID,30.00,
SETTLE,T1,BBBB,RECEIVED,30.00,
NET,,AAAA,,-30.00,
NET,,BBBB,,30.00,
BALANCE,1,AAAA,,70.00,
BALANCE,1,BBBB,,35.00,
FLIGHT,,,,0.00,
";

// How a payment of 30.00 from bank AAAA to BBBB ended: its name, its outcome, and what the accounts
// of both banks and the money in flight came to.
#[derive(Clone, Copy)]
struct End(&'static [u8], Outcome, [u64; 2], u64);

// The report of such an end.
fn report_of(alloc: Global, end: End) -> Result<Vec<u8>, Fail> {
    let [payer, payee] = end.2;
    let row = row(end.0, b"AAAA", b"BBBB", 3_000, Some(end.1))?;
    let row = if payee > 500 { row } else { unmoved(row) };
    text(
        alloc,
        &[row],
        &held(alloc, payer, payee)?,
        u128::from(end.3),
    )
}

// Whether a record has the six fields of a line.
fn has_fields(record: &ByteRecord, line: &str) -> bool {
    let mut count = 0usize;
    for (place, field) in line.split(',').enumerate() {
        if record.get(place) != Some(field.as_bytes()) {
            return false;
        }
        count = place;
    }
    count == 5 && record.len() == 6
}

// Whether a reader finds in a text its lines, field by field.
fn reads_back(alloc: Global, text: &str) -> Result<bool, Fail> {
    let mut lines = text.lines();
    let reader = ReaderBuilder::new()
        .has_headers(false)
        .from_reader(alloc, text.as_bytes());
    for record in reader.into_byte_records() {
        match lines.next() {
            Some(line) if has_fields(&record?, line) => {}
            _ => return Ok(false),
        }
    }
    Ok(lines.next().is_none())
}

#[test]
fn examples_read_back(rt: HostRuntime) -> Result<(), Fail> {
    let alloc = rt.alloc();
    for (example, end) in [
        (
            COLLECT_APPROVED,
            End(b"C1", Outcome::Success, [7_000, 3_500], 0),
        ),
        (
            COLLECT_TOO_LATE,
            End(b"C1", Outcome::Failure(Code::Expired), [10_000, 500], 0),
        ),
        (
            CREDIT_DEEMED,
            End(b"T1", Outcome::Deemed, [7_000, 500], 3_000),
        ),
        (
            DEBIT_REVERSED,
            End(b"T1", Outcome::Failure(Code::DebitLate), [10_000, 500], 0),
        ),
        (ONE_PAYMENT, End(b"T1", Outcome::Success, [7_000, 3_500], 0)),
    ] {
        assert!(rt; reads_back(alloc, example)?, "{example}");
        assert!(rt;
            report_of(alloc, end)?.as_slice() == example.as_bytes(),
            "{example}"
        );
    }
    Ok(())
}

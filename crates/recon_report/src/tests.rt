use super::*;
use csv::ReaderBuilder;
use std::alloc::Global;
use std::test::Fail;
use upi_base::{
    AcNum, AccountRef, BankCode, Code, Moment, NoMemory, Outcome, Paise, Setup, SetupLine,
    SetupLines, TxnId, TxnRow,
};
use vpa_directory::Directory;

mod examples;

fn bank(code: &[u8]) -> Result<BankCode, Fail> {
    Ok(BankCode::read(code).ok_or(NoMemory)?)
}

// A setup with these banks, and lines that give none.
fn setup(alloc: Global, banks: &[[u8; 4]]) -> Result<Directory, Fail> {
    let mut lines = SetupLines::new(alloc);
    for code in banks {
        lines.push(SetupLine::Bank(bank(code)?))?;
        lines.push(SetupLine::Account {
            ac: account(code)?,
            opening: Paise::of(10_000).ok_or(NoMemory)?,
            no_debit: false,
            no_credit: false,
        })?;
    }
    let start = Moment::of(0).ok_or(NoMemory)?;
    let directory = Directory::build(alloc, Setup { start, lines }).ok();
    Ok(directory.ok_or(NoMemory)?)
}

fn account(code: &[u8]) -> Result<AccountRef, Fail> {
    Ok(AccountRef {
        bank: bank(code)?,
        num: AcNum::read(b"1").ok_or(NoMemory)?,
    })
}

fn row(
    txn: &[u8],
    payer: &[u8],
    payee: &[u8],
    paise: u64,
    outcome: Option<Outcome>,
) -> Result<TxnRow, Fail> {
    Ok(TxnRow {
        txn: TxnId::read(txn).ok_or(NoMemory)?,
        payer_bank: bank(payer)?,
        payee_bank: bank(payee)?,
        amount: Paise::of(paise).ok_or(NoMemory)?,
        outcome,
        credit_moved: true,
    })
}

fn unmoved(row: TxnRow) -> TxnRow {
    TxnRow {
        credit_moved: false,
        ..row
    }
}

// What the accounts with the number 1 at banks AAAA and BBBB hold.
fn held(alloc: Global, first: u64, second: u64) -> Result<Vec<(AccountRef, u64)>, Fail> {
    let mut out = Vec::new(alloc);
    out.push((account(b"AAAA")?, first))?;
    out.push((account(b"BBBB")?, second))?;
    Ok(out)
}

const TWO: [[u8; 4]; 2] = [*b"AAAA", *b"BBBB"];

// The report of banks AAAA and BBBB.
fn text(
    alloc: Global,
    rows: &[TxnRow],
    balances: &[(AccountRef, u64)],
    flight: u128,
) -> Result<Vec<u8>, Fail> {
    let setup = setup(alloc, &TWO)?;
    Ok(report(alloc, &setup, rows, balances, flight)?)
}

// What a reader of comma-separated values finds in a text: each field ends with `|`, and each line
// with `;`.
fn read(alloc: Global, text: &[u8]) -> Result<Vec<u8>, Fail> {
    let reader = ReaderBuilder::new()
        .has_headers(false)
        .from_reader(alloc, text);
    let mut out = Vec::new(alloc);
    for record in reader.into_byte_records() {
        let record = record?;
        for place in 0..record.len() {
            if let Some(field) = record.get(place) {
                out.extend_from_slice(field)?;
                out.push(b'|')?;
            }
        }
        out.push(b';')?;
    }
    Ok(out)
}

#[test]
fn one_payment_that_succeeded(rt: HostRuntime) -> Result<(), Fail> {
    let alloc = rt.alloc();
    let mut rows = Vec::new(alloc);
    rows.push(row(b"T1", b"AAAA", b"BBBB", 3_000, Some(Outcome::Success))?)?;
    let out = text(alloc, &rows, &held(alloc, 7_000, 3_500)?, 0)?;
    assert_eq!(rt;
        out.as_slice(),
        b"row,id,bank,detail,amount,code\nOUTCOME,T1,,SUCCESS,30.00,\nSETTLE,T1,AAAA,PAID,30.00,\nSETTLE,T1,BBBB,RECEIVED,30.00,\nNET,,AAAA,,-30.00,\nNET,,BBBB,,30.00,\nBALANCE,1,AAAA,,70.00,\nBALANCE,1,BBBB,,35.00,\nFLIGHT,,,,0.00,\n".as_slice()
    );
    assert_eq!(rt;
        read(alloc, &out)?.as_slice(),
        b"row|id|bank|detail|amount|code|;OUTCOME|T1||SUCCESS|30.00||;SETTLE|T1|AAAA|PAID|30.00||;SETTLE|T1|BBBB|RECEIVED|30.00||;NET||AAAA||-30.00||;NET||BBBB||30.00||;BALANCE|1|AAAA||70.00||;BALANCE|1|BBBB||35.00||;FLIGHT||||0.00||;".as_slice()
    );
    Ok(())
}

#[test]
fn no_payment(rt: HostRuntime) -> Result<(), Fail> {
    let alloc = rt.alloc();
    let out = text(alloc, &[], &held(alloc, 10_000, 500)?, 0)?;
    assert_eq!(rt;
        out.as_slice(),
        b"row,id,bank,detail,amount,code\nNET,,AAAA,,0.00,\nNET,,BBBB,,0.00,\nBALANCE,1,AAAA,,100.00,\nBALANCE,1,BBBB,,5.00,\nFLIGHT,,,,0.00,\n".as_slice()
    );
    Ok(())
}

// T1's credit didn't move, and T2's did, though nobody answered it in time.
#[test]
fn deemed_payments(rt: HostRuntime) -> Result<(), Fail> {
    let alloc = rt.alloc();
    let mut rows = Vec::new(alloc);
    rows.push(unmoved(row(b"T1", b"AAAA", b"BBBB", 3_000, Some(Outcome::Deemed))?))?;
    rows.push(row(b"T2", b"BBBB", b"AAAA", 1_000, Some(Outcome::Deemed))?)?;
    let out = text(alloc, &rows, &held(alloc, 8_000, 4_000)?, 3_000)?;
    assert_eq!(rt;
        out.as_slice(),
        b"row,id,bank,detail,amount,code\nOUTCOME,T1,,DEEMED,30.00,\nOUTCOME,T2,,DEEMED,10.00,\nSETTLE,T1,AAAA,PAID,30.00,\nSETTLE,T2,AAAA,RECEIVED,10.00,\nSETTLE,T1,BBBB,RECEIVED,30.00,\nSETTLE,T2,BBBB,PAID,10.00,\nNET,,AAAA,,-20.00,\nNET,,BBBB,,20.00,\nRECON,T1,BBBB,,30.00,\nBALANCE,1,AAAA,,80.00,\nBALANCE,1,BBBB,,40.00,\nFLIGHT,,,,30.00,\n".as_slice()
    );
    Ok(())
}

// Both accounts are at one bank, which pays itself.
#[test]
fn a_payment_within_one_bank(rt: HostRuntime) -> Result<(), Fail> {
    let alloc = rt.alloc();
    let mut rows = Vec::new(alloc);
    rows.push(row(b"T1", b"BBBB", b"BBBB", 5, Some(Outcome::Success))?)?;
    let out = text(alloc, &rows, &[], 0)?;
    assert_eq!(rt;
        out.as_slice(),
        b"row,id,bank,detail,amount,code\nOUTCOME,T1,,SUCCESS,0.05,\nSETTLE,T1,BBBB,PAID,0.05,\nSETTLE,T1,BBBB,RECEIVED,0.05,\nNET,,AAAA,,0.00,\nNET,,BBBB,,0.00,\nFLIGHT,,,,0.00,\n".as_slice()
    );
    Ok(())
}

// A payment that failed is listed with its code, and settles nothing; one without an outcome isn't
// listed.
#[test]
fn failures(rt: HostRuntime) -> Result<(), Fail> {
    let alloc = rt.alloc();
    let cases = [
        (Code::Declined, b"DECLINED".as_slice()),
        (Code::Expired, b"EXPIRED".as_slice()),
        (Code::AuthLate, b"AUTHLATE".as_slice()),
        (Code::Funds, b"FUNDS".as_slice()),
        (Code::NoDebit, b"NODEBIT".as_slice()),
        (Code::NoCredit, b"NOCREDIT".as_slice()),
        (Code::Cap, b"CAP".as_slice()),
        (Code::DebitLate, b"DEBITLATE".as_slice()),
        (Code::Nothing, b"NOTHING".as_slice()),
        (Code::Closed, b"CLOSED".as_slice()),
    ];
    for (code, word) in cases {
        let mut rows = Vec::new(alloc);
        rows.push(row(b"T0", b"AAAA", b"BBBB", 100, None)?)?;
        rows.push(unmoved(row(b"T1", b"AAAA", b"BBBB", 3_000, Some(Outcome::Failure(code)))?))?;
        let out = text(alloc, &rows, &[], 0)?;
        let mut expected = Vec::new(alloc);
        expected.extend_from_slice(b"row,id,bank,detail,amount,code\nOUTCOME,T1,,FAILURE,30.00,")?;
        expected.extend_from_slice(word)?;
        expected.extend_from_slice(b"\nNET,,AAAA,,0.00,\nNET,,BBBB,,0.00,\nFLIGHT,,,,0.00,\n")?;
        assert_eq!(rt; out.as_slice(), expected.as_slice());
    }
    Ok(())
}

// The largest numbers that can be told.
#[test]
fn large_sums(rt: HostRuntime) -> Result<(), Fail> {
    let alloc = rt.alloc();
    let mut rows = Vec::new(alloc);
    for txn in [b"T1".as_slice(), b"T2".as_slice()] {
        rows.push(row(txn, b"AAAA", b"BBBB", 1_000_000_000, Some(Outcome::Success))?)?;
    }
    let out = text(alloc, &rows, &held(alloc, 0, u64::MAX)?, u128::MAX)?;
    assert_eq!(rt;
        out.as_slice(),
        b"row,id,bank,detail,amount,code\nOUTCOME,T1,,SUCCESS,10000000.00,\nOUTCOME,T2,,SUCCESS,10000000.00,\nSETTLE,T1,AAAA,PAID,10000000.00,\nSETTLE,T2,AAAA,PAID,10000000.00,\nSETTLE,T1,BBBB,RECEIVED,10000000.00,\nSETTLE,T2,BBBB,RECEIVED,10000000.00,\nNET,,AAAA,,-20000000.00,\nNET,,BBBB,,20000000.00,\nBALANCE,1,AAAA,,0.00,\nBALANCE,1,BBBB,,184467440737095516.15,\nFLIGHT,,,,3402823669209384634633746074317682114.55,\n".as_slice()
    );
    Ok(())
}

// The code of a bank by its number: AAAA, BAAA, .. ZAAA, ABAA, ..
fn code_of(number: u8) -> [u8; 4] {
    [b'A' + number % 26, b'A' + number / 26 % 26, b'A', b'A']
}

// So many payments round a ring of 64 banks: from each bank to the next.
fn ring(alloc: Global, count: u32) -> Result<Vec<TxnRow>, Fail> {
    let mut rows = Vec::new(alloc);
    for number in 0..count {
        let name = format!(in alloc; "T{number}")?;
        let payer = code_of((number % 64) as u8);
        let payee = code_of(((number + 1) % 64) as u8);
        let paise = u64::from(number % 64) + 1;
        rows.push(row(
            name.as_bytes(),
            &payer,
            &payee,
            paise,
            Some(Outcome::Success),
        )?)?;
    }
    Ok(rows)
}

// The report of payments round 64 banks.
fn ring_report(alloc: Global, count: u32) -> Result<Vec<u8>, Fail> {
    let mut banks = [[b'A'; 4]; 64];
    for (number, place) in banks.iter_mut().enumerate() {
        *place = code_of((number % 64) as u8);
    }
    let setup = setup(alloc, &banks)?;
    let rows = ring(alloc, count)?;
    Ok(report(alloc, &setup, &rows, &[], 0)?)
}

// How many lines of a report begin so.
fn count(text: &[u8], start: &[u8]) -> usize {
    let mut found = 0usize;
    for line in text.split(|c| *c == b'\n') {
        if line.starts_with(start) {
            found = found.saturating_add(1);
        }
    }
    found
}

#[test]
fn sixty_four_banks(rt: HostRuntime) -> Result<(), Fail> {
    let out = ring_report(rt.alloc(), 64)?;
    assert_eq!(rt; count(&out, b"OUTCOME,"), 64);
    assert_eq!(rt; count(&out, b"SETTLE,"), 128);
    assert_eq!(rt; count(&out, b"NET,"), 64);
    // The first bank pays 0.01 in the first payment and receives 0.64 in the last; each other bank
    // receives so much, and pays 0.01 more in the next payment.
    assert_eq!(rt; count(&out, b"SETTLE,T0,AAAA,PAID,0.01,"), 1);
    assert_eq!(rt; count(&out, b"NET,,AAAA,,0.63,"), 1);
    assert_eq!(rt; count(&out, b"NET,,LCAA,,-0.01,"), 1);
    Ok(())
}

#[test]
fn as_many_payments_as_there_may_be(rt: HostRuntime) -> Result<(), Fail> {
    let out = ring_report(rt.alloc(), 65_536)?;
    assert_eq!(rt; count(&out, b"OUTCOME,"), 65_536);
    assert_eq!(rt; count(&out, b"SETTLE,"), 131_072);
    assert_eq!(rt; count(&out, b"NET,,AAAA,,645.12,"), 1);
    assert_eq!(rt; count(&out, b"NET,,BAAA,,-10.24,"), 1);
    Ok(())
}

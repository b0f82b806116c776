//! A setup of 64 banks, and as many rows of transactions between them as are asked for.
use std::alloc::Global;
use upi_base::{
    AcNum, AccountRef, BankCode, Code, Moment, NoMemory, Outcome, Paise, Setup, SetupLine,
    SetupLines, TxnId, TxnRow,
};
use vpa_directory::Directory;

/// How many banks there are.
const BANKS: u32 = 64;

// The code of a bank: BAAA, BAAB and so on, by the digits of its number in base eight.
fn bank(k: u32) -> Result<BankCode, NoMemory> {
    let high = b'A' + (k / 8 % 8) as u8;
    let low = b'A' + (k % 8) as u8;
    BankCode::read(&[b'B', b'A', high, low]).ok_or(NoMemory)
}

/// The banks, each with a line of its own.
pub fn directory(alloc: Global) -> Result<Directory, NoMemory> {
    let mut lines = SetupLines::new(alloc);
    for k in 0..BANKS {
        lines.push(SetupLine::Bank(bank(k)?))?;
    }
    let start = Moment::of(0).ok_or(NoMemory)?;
    Directory::build(alloc, Setup { start, lines })
        .ok()
        .ok_or(NoMemory)
}

// How the transaction of a number ended: of sixteen, two failed and one is deemed.
fn outcome(k: u32) -> Outcome {
    match k % 16 {
        3 | 9 => Outcome::Failure(Code::Funds),
        5 => Outcome::Deemed,
        _ => Outcome::Success,
    }
}

// The row of a number, from one of the banks to another. The credit of each second deemed one moved.
fn row(alloc: Global, k: u32) -> Result<TxnRow, NoMemory> {
    let name = format!(in alloc; "T{k}")?;
    let outcome = outcome(k);
    Ok(TxnRow {
        txn: TxnId::read(name.as_bytes()).ok_or(NoMemory)?,
        payer_bank: bank(k % BANKS)?,
        payee_bank: bank((k % BANKS + 1 + k / BANKS % (BANKS - 1)) % BANKS)?,
        amount: Paise::of(u64::from(k) + 1).ok_or(NoMemory)?,
        outcome: Some(outcome),
        credit_moved: outcome == Outcome::Success || k % 32 == 5,
    })
}

/// So many rows.
pub fn rows(alloc: Global, size: u32) -> Result<Vec<TxnRow>, NoMemory> {
    let mut rows = Vec::new(alloc);
    for k in 0..size {
        rows.push(row(alloc, k)?)?;
    }
    Ok(rows)
}

/// What an account at each bank holds, in paise.
pub fn balances(alloc: Global) -> Result<Vec<(AccountRef, u64)>, NoMemory> {
    let mut balances = Vec::new(alloc);
    for k in 0..BANKS {
        let ac = AccountRef {
            bank: bank(k)?,
            num: AcNum::read(b"1").ok_or(NoMemory)?,
        };
        balances.push((ac, u64::from(k)))?;
    }
    Ok(balances)
}

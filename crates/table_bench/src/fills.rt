//! Names, accounts and lines of a setup, as many as are asked for.
use std::alloc::Global;
use upi_base::{
    AccountRef, Addr, BankCode, Moment, NoMemory, Paise, Policy, PspName, SetupLine, TxnId,
};

/// The names of so many transactions: T0, T1 and so on.
pub fn names(alloc: Global, size: u32) -> Result<Vec<TxnId>, NoMemory> {
    let mut names = Vec::new(alloc);
    for k in 0..size {
        let text = format!(in alloc; "T{k}")?;
        names.push(TxnId::read(text.as_bytes()).ok_or(NoMemory)?)?;
    }
    Ok(names)
}

/// So many accounts: AAAA/0, AAAA/1 and so on.
pub fn accounts(alloc: Global, size: u32) -> Result<Vec<AccountRef>, NoMemory> {
    let mut accounts = Vec::new(alloc);
    for k in 0..size {
        let text = format!(in alloc; "AAAA/{k}")?;
        accounts.push(AccountRef::read(text.as_bytes()).ok_or(NoMemory)?)?;
    }
    Ok(accounts)
}

/// When a setup starts.
pub fn start() -> Result<Moment, NoMemory> {
    Moment::of(0).ok_or(NoMemory)
}

/// The lines of a setup: a bank, a PSP, so many accounts, and then an address for each.
pub fn lines(alloc: Global, size: u32) -> Result<Vec<SetupLine>, NoMemory> {
    let accounts = accounts(alloc, size)?;
    let opening = Paise::of(100).ok_or(NoMemory)?;
    let mut lines = Vec::new(alloc);
    lines.push(SetupLine::Bank(BankCode::read(b"AAAA").ok_or(NoMemory)?))?;
    lines.push(SetupLine::Psp(PspName::read(b"alpha").ok_or(NoMemory)?))?;
    for ac in &accounts {
        lines.push(SetupLine::Account {
            ac: ac.copy(),
            opening,
            no_debit: false,
            no_credit: false,
        })?;
    }
    for (k, ac) in accounts.iter().enumerate() {
        let text = format!(in alloc; "a{k}@alpha")?;
        lines.push(SetupLine::Address {
            addr: Addr::read(text.as_bytes()).ok_or(NoMemory)?,
            ac: ac.copy(),
            policy: Policy::Yes,
        })?;
    }
    Ok(lines)
}

use super::*;
use std::test::Fail;
use upi_base::{BankCode, Paise};

fn bank(code: &[u8]) -> Result<SetupLine, Fail> {
    Ok(SetupLine::Bank(BankCode::read(code).ok_or("a bank")?))
}

fn psp(name: &[u8]) -> Result<SetupLine, Fail> {
    Ok(SetupLine::Psp(PspName::read(name).ok_or("a PSP")?))
}

fn account(text: &[u8]) -> Result<SetupLine, Fail> {
    Ok(SetupLine::Account {
        ac: AccountRef::read(text).ok_or("an account")?,
        opening: Paise::of(100).ok_or("a sum")?,
        no_debit: false,
        no_credit: false,
    })
}

fn address(text: &[u8], ac: &[u8], policy: Policy) -> Result<SetupLine, Fail> {
    Ok(SetupLine::Address {
        addr: Addr::read(text).ok_or("an address")?,
        ac: AccountRef::read(ac).ok_or("an account")?,
        policy,
    })
}

fn small(alloc: Global) -> Result<Setup, Fail> {
    let mut lines = SetupLines::new(alloc);
    lines.push(bank(b"AAAA")?)?;
    lines.push(psp(b"alpha")?)?;
    lines.push(account(b"AAAA/1")?)?;
    lines.push(address(b"ann@alpha", b"AAAA/1", Policy::Ask)?)?;
    Ok(Setup {
        start: Moment::of(1_704_067_200).ok_or("a moment")?,
        lines,
    })
}

// The directory of a setup, if it is accepted.
fn built(alloc: Global, setup: Setup) -> Option<Directory> {
    match Directory::build(alloc, setup) {
        Ok(directory) => Some(directory),
        Err(_) => None,
    }
}

// Why a setup is refused, if it is.
fn refusal(alloc: Global, setup: Setup) -> Option<At> {
    match Directory::build(alloc, setup) {
        Ok(_) => None,
        Err(at) => Some(at),
    }
}

// Whether each of these lines is refused for the reason beside it, or accepted where there is none.
fn are_told(
    directory: &mut Directory,
    lines: Vec<SetupLine>,
    wanted: &[Option<SetupFault>],
) -> bool {
    let mut right = true;
    for (line, wanted) in lines.into_iter().zip(wanted) {
        let fault = match directory.add(line) {
            Ok(()) => None,
            Err(fault) => Some(fault),
        };
        if fault != *wanted {
            right = false;
        }
    }
    right
}

// How many lines there are.
fn count(directory: &Directory) -> usize {
    directory.setup().lines.items().len()
}

#[test]
fn what_was_given_is_found(rt: HostRuntime) -> Result<(), Fail> {
    let alloc = rt.alloc();
    let setup = small(alloc)?;
    let ann = Addr::read(b"ann@alpha").ok_or("an address")?;
    let bob = Addr::read(b"bob@alpha").ok_or("an address")?;
    let own = AccountRef::read(b"AAAA/1").ok_or("an account")?;
    let alpha = PspName::read(b"alpha").ok_or("a PSP")?;
    let alph = PspName::read(b"alph").ok_or("a PSP")?;
    let directory = built(alloc, setup).ok_or("a setup")?;
    let found = directory.find(&ann) == Some(&own) && directory.policy(&ann) == Some(Policy::Ask);
    let missing = directory.find(&bob) == None && directory.policy(&bob) == None;
    let psps = directory.has_psp(&alpha) && !directory.has_psp(&alph);
    let lines = count(&directory);
    let start = directory.into_setup().start.get();
    assert!(rt; found && missing && psps);
    assert!(rt; lines == 4 && start == 1_704_067_200);
    Ok(())
}

#[test]
fn the_first_reason_is_told(rt: HostRuntime) -> Result<(), Fail> {
    let alloc = rt.alloc();
    let setup = small(alloc)?;
    let mut lines = Vec::new(alloc);
    lines.push(bank(b"AAAA")?)?;
    lines.push(psp(b"alpha")?)?;
    lines.push(account(b"AAAA/1")?)?;
    lines.push(account(b"CCCC/1")?)?;
    lines.push(address(b"ann@alpha", b"CCCC/1", Policy::Yes)?)?;
    lines.push(address(b"x@gamma", b"AAAA/1", Policy::Yes)?)?;
    lines.push(address(b"x@alpha", b"AAAA/9", Policy::Yes)?)?;
    lines.push(address(b"x@alpha", b"AAAA/1", Policy::Yes)?)?;
    let wanted = [
        Some(SetupFault::Twice),
        Some(SetupFault::Twice),
        Some(SetupFault::Twice),
        Some(SetupFault::NoBank),
        Some(SetupFault::Twice),
        Some(SetupFault::NoPsp),
        Some(SetupFault::NoAccount),
        None,
    ];
    let mut directory = built(alloc, setup).ok_or("a setup")?;
    let right = are_told(&mut directory, lines, &wanted);
    let left = count(&directory);
    drop(directory);
    assert!(rt; right && left == 5);
    Ok(())
}

#[test]
fn the_refused_line_is_told(rt: HostRuntime) -> Result<(), Fail> {
    let alloc = rt.alloc();
    let mut lines = SetupLines::new(alloc);
    lines.push(bank(b"AAAA")?)?;
    lines.push(bank(b"AAAA")?)?;
    let setup = Setup {
        start: Moment::of(0).ok_or("a moment")?,
        lines,
    };
    let at = refusal(alloc, setup).ok_or("a refusal")?;
    assert!(rt; at.at == 2 && at.fault == SetupFault::Twice);
    Ok(())
}

// 64 banks, and a PSP.
fn names(alloc: Global) -> Result<Vec<SetupLine>, Fail> {
    let mut lines = Vec::new(alloc);
    for first in b'A'..=b'D' {
        for second in b'A'..=b'P' {
            lines.push(bank(&[first, second, b'X', b'X'])?)?;
        }
    }
    lines.push(psp(b"alpha")?)?;
    Ok(lines)
}

// So many accounts, and then as many addresses.
fn listed(alloc: Global, count: u32) -> Result<Vec<SetupLine>, Fail> {
    let mut lines = Vec::new(alloc);
    for k in 0..count {
        lines.push(account(format!(in alloc; "AAXX/{k}")?.as_bytes())?)?;
    }
    for k in 0..count {
        let addr = format!(in alloc; "a{k}@alpha")?;
        lines.push(address(addr.as_bytes(), b"AAXX/7", Policy::No)?)?;
    }
    Ok(lines)
}

#[test]
fn there_is_room_for_so_many(rt: HostRuntime) -> Result<(), Fail> {
    let alloc = rt.alloc();
    let start = Moment::of(0).ok_or("a moment")?;
    let names = names(alloc)?;
    let listed = listed(alloc, 65_536)?;
    let accepted = vec![in alloc; None; 131_072]?;
    let mut more = Vec::new(alloc);
    more.push(bank(b"EAXX")?)?;
    more.push(bank(b"AAXX")?)?;
    more.push(account(b"AAXX/x")?)?;
    more.push(address(b"x@alpha", b"AAXX/7", Policy::No)?)?;
    let limit = Some(SetupFault::Limit);
    let mut directory = Directory::new(alloc, start);
    let banks = are_told(&mut directory, names, &accepted);
    let others = are_told(&mut directory, listed, &accepted);
    let left = count(&directory);
    let right = are_told(
        &mut directory,
        more,
        &[limit, Some(SetupFault::Twice), limit, limit],
    );
    drop(directory);
    assert!(rt; banks && others && right);
    assert!(rt; left == 64 + 1 + 2 * 65_536);
    Ok(())
}

//! What the lines of a setup say. Each call walks the list.
ghost use Rattle.std.specs.Prelude.{◌≡◌, List, ℕ};
ghost use Rattle.std.specs.List.{list_any, count_by};
ghost use Rattle.upi_base.specs.Lists.{pick};
ghost use Rattle.upi_base.specs.Setup.{account_in, listing_in, names_bank, names_psp, is_bank_line, is_psp_line, is_account_line, is_address_line, same_account as same_account_of, provider as provider_of, has_bank as has_bank_of, has_psp as has_psp_of, account_named as account_named_of, listing_at as listing_at_of, account_at as account_at_of, bank_fault as bank_fault_of, psp_fault as psp_fault_of, account_fault as account_fault_of, address_fault as address_fault_of, setup_fault as setup_fault_of};

use crate::fault::Why;
use crate::limits::{MAX_ACCOUNTS, MAX_ADDRESSES, MAX_BANKS, MAX_PSPS};
use crate::setup::{Account, AccountRef, Listing, SetupLine};
use crate::{Addr, BankCode, PspName};

/// Whether two accounts are one.
pub fn same_account(a: &AccountRef, b: &AccountRef) -> bool
    ensures { result ≡ same_account_of a.now b.now }
{
    a.bank == b.bank && a.num == b.num
}

/// What stands behind the first `@` of an address: the name of its PSP.
pub fn provider(addr: &[u8]) -> &[u8]
    ensures { result.now ≡ provider_of addr.now }
{
    for (i, b) in addr.iter().enumerate() {
        if *b == b'@' {
            return &addr[i + 1..];
        }
    }
    &addr[addr.len()..]
}

/// Whether the lines give the bank.
pub fn has_bank(lines: &[SetupLine], code: &BankCode) -> bool
    ensures { result ≡ has_bank_of lines.now code.now }
{
    for line in lines {
        if let SetupLine::Bank(given) = line {
            if given == code {
                return true;
            }
        }
    }
    false
}

/// Whether the lines give the PSP.
pub fn has_psp(lines: &[SetupLine], name: &[u8]) -> bool
    ensures { result ≡ has_psp_of lines.now name.now }
{
    for line in lines {
        if let SetupLine::Psp(given) = line {
            if given.bytes() == name {
                return true;
            }
        }
    }
    false
}

/// The account of this name, if the lines give it.
pub fn account_named(lines: &[SetupLine], wanted: &AccountRef) -> Option<Account>
    ensures { result ≡ account_named_of lines.now wanted.now }
{
    for line in lines {
        if let SetupLine::Account {
            ac,
            opening,
            no_debit,
            no_credit,
        } = line
        {
            if same_account(ac, wanted) {
                return Some(Account {
                    ac: ac.copy(),
                    opening: *opening,
                    no_debit: *no_debit,
                    no_credit: *no_credit,
                });
            }
        }
    }
    None
}

/// The account and the policy of an address, if the lines give it.
pub fn listing_at(lines: &[SetupLine], wanted: &Addr) -> Option<Listing>
    ensures { result ≡ listing_at_of lines.now wanted.now }
{
    for line in lines {
        if let SetupLine::Address { addr, ac, policy } = line {
            if addr == wanted {
                return Some(Listing {
                    ac: ac.copy(),
                    policy: *policy,
                });
            }
        }
    }
    None
}

/// The account of an address, if the lines give both.
pub fn account_at(lines: &[SetupLine], addr: &Addr) -> Option<Account>
    ensures { result ≡ account_at_of lines.now addr.now }
{
    let listing = listing_at(lines, addr)?;
    account_named(lines, &listing.ac)
}

fn is_bank(line: &SetupLine) -> bool
    ensures { result ≡ is_bank_line line.now }
{
    matches!(line, SetupLine::Bank(_))
}

fn is_psp(line: &SetupLine) -> bool
    ensures { result ≡ is_psp_line line.now }
{
    matches!(line, SetupLine::Psp(_))
}

fn is_account(line: &SetupLine) -> bool
    ensures { result ≡ is_account_line line.now }
{
    matches!(line, SetupLine::Account { .. })
}

fn is_address(line: &SetupLine) -> bool
    ensures { result ≡ is_address_line line.now }
{
    matches!(line, SetupLine::Address { .. })
}

fn bank_fault(lines: &[SetupLine], code: &BankCode) -> Option<Why>
    ensures { result ≡ bank_fault_of lines.now code.now }
{
    if has_bank(lines, code) {
        Some(Why::Twice)
    } else if lines.iter().filter(|l| is_bank(l)).count() >= MAX_BANKS {
        Some(Why::Limit)
    } else {
        None
    }
}

fn psp_fault(lines: &[SetupLine], name: &PspName) -> Option<Why>
    ensures { result ≡ psp_fault_of lines.now name.now }
{
    if has_psp(lines, name.bytes()) {
        Some(Why::Twice)
    } else if lines.iter().filter(|l| is_psp(l)).count() >= MAX_PSPS {
        Some(Why::Limit)
    } else {
        None
    }
}

fn account_fault(lines: &[SetupLine], ac: &AccountRef) -> Option<Why>
    ensures { result ≡ account_fault_of lines.now ac.now }
{
    if !has_bank(lines, &ac.bank) {
        Some(Why::NoBank)
    } else if account_named(lines, ac).is_some() {
        Some(Why::Twice)
    } else if lines.iter().filter(|l| is_account(l)).count() >= MAX_ACCOUNTS {
        Some(Why::Limit)
    } else {
        None
    }
}

fn address_fault(lines: &[SetupLine], addr: &Addr, ac: &AccountRef) -> Option<Why>
    ensures { result ≡ address_fault_of lines.now addr.now ac.now }
{
    if listing_at(lines, addr).is_some() {
        Some(Why::Twice)
    } else if !has_psp(lines, provider(addr.bytes())) {
        Some(Why::NoPsp)
    } else if account_named(lines, ac).is_none() {
        Some(Why::NoAccount)
    } else if lines.iter().filter(|l| is_address(l)).count() >= MAX_ADDRESSES {
        Some(Why::Limit)
    } else {
        None
    }
}

/// Why a line is refused behind these lines, if it is: the first reason of `docs/DEFINITIONS.md`,
/// "The setup".
pub fn setup_fault(lines: &[SetupLine], line: &SetupLine) -> Option<Why>
    ensures { result ≡ setup_fault_of lines.now line.now }
{
    match line {
        SetupLine::Bank(code) => bank_fault(lines, code),
        SetupLine::Psp(name) => psp_fault(lines, name),
        SetupLine::Account {
            ac,
            opening: _opening,
            no_debit: _no_debit,
            no_credit: _no_credit,
        } => account_fault(lines, ac),
        SetupLine::Address {
            addr,
            ac,
            policy: _policy,
        } => address_fault(lines, addr, ac),
    }
}

//! One hashed table for each kind of line. A line is judged by the tables. One that is accepted goes
//! to the lines and to its table, or to neither: the room in the table is made first, and what is left
//! to do after the line is there can't fail.
ghost use Rattle.std.specs.Prelude.{◌≡◌, ◌++◌, ◌∷◌, [], None, OnOk, OnErr};
ghost use Rattle.upi_base.specs.Setup.{provider as provider_of, bank_fault, psp_fault, account_fault, address_fault};
ghost use Rattle.upi_base.specs.declared.setup.SetupLine.TheVariants as line;
ghost use Rattle.vpa_directory.specs.Tables.{BanksFit, PspsFit, AccountsFit, AddressesFit, bank_refusal as bank_refusal_by, psp_refusal as psp_refusal_by, account_refusal as account_refusal_by, address_refusal as address_refusal_by};

use indexmap::{IndexMap, IndexSet};
use upi_base::{
    Account, AccountRef, Addr, BankCode, Listing, MAX_ACCOUNTS, MAX_ADDRESSES, MAX_BANKS, MAX_PSPS,
    NoMemory, PspName, SetupLine, SetupLines, Why, provider,
};

pub(crate) type Banks = IndexSet<BankCode>;

pub(crate) type Psps = IndexSet<PspName>;

pub(crate) type Accounts = IndexSet<AccountRef>;

pub(crate) type Addresses = IndexMap<Addr, Listing>;

// The name of an address's PSP: by its grammar, there is one.
fn psp_of(addr: &Addr) -> PspName
    ensures { result ≡ provider_of addr.now }
{
    let Some(psp) = PspName::read(provider(addr.bytes())) else {
        unreachable!();
    };
    psp
}

/// Why a bank is refused, if it is.
pub(crate) fn bank_refusal(banks: &Banks, code: &BankCode) -> Option<Why>
    ensures { result ≡ bank_refusal_by banks.now.keys code.now }
{
    if banks.contains(code) {
        Some(Why::Twice)
    } else if banks.len() >= MAX_BANKS {
        Some(Why::Limit)
    } else {
        None
    }
}

/// Why a PSP is refused, if it is.
pub(crate) fn psp_refusal(psps: &Psps, name: &PspName) -> Option<Why>
    ensures { result ≡ psp_refusal_by psps.now.keys name.now }
{
    if psps.contains(name) {
        Some(Why::Twice)
    } else if psps.len() >= MAX_PSPS {
        Some(Why::Limit)
    } else {
        None
    }
}

/// Why an account is refused, if it is.
pub(crate) fn account_refusal(banks: &Banks, accounts: &Accounts, ac: &AccountRef) -> Option<Why>
    ensures { result ≡ account_refusal_by banks.now.keys accounts.now.keys ac.now }
{
    if !banks.contains(&ac.bank) {
        Some(Why::NoBank)
    } else if accounts.contains(ac) {
        Some(Why::Twice)
    } else if accounts.len() >= MAX_ACCOUNTS {
        Some(Why::Limit)
    } else {
        None
    }
}

/// Why an address is refused, if it is.
pub(crate) fn address_refusal(
    psps: &Psps,
    accounts: &Accounts,
    addresses: &Addresses,
    addr: &Addr,
    ac: &AccountRef,
) -> Option<Why>
    ensures { result
        ≡ address_refusal_by psps.now.keys accounts.now.keys addresses.now.entries addr.now ac.now }
{
    if addresses.contains_key(addr) {
        Some(Why::Twice)
    } else if !psps.contains(&psp_of(addr)) {
        Some(Why::NoPsp)
    } else if !accounts.contains(ac) {
        Some(Why::NoAccount)
    } else if addresses.len() >= MAX_ADDRESSES {
        Some(Why::Limit)
    } else {
        None
    }
}

/// Adds a bank behind the lines, which accept it. At want of memory nothing changes.
pub(crate) fn push_bank(
    lines: &mut SetupLines,
    banks: &mut Banks,
    code: BankCode,
) -> Result<(), NoMemory>
    requires banks { BanksFit lines.old banks.old.keys }
    requires free { bank_fault lines.old code ≡ None }
    ensures fit { BanksFit lines.new banks.new.keys }
    ensures ok { OnOk result (lines.new ≡ lines.old ++ line.Bank code ∷ []) }
    ensures err { OnErr result (lines.new ≡ lines.old) }
{
    banks.reserve(1)?;
    lines.push(SetupLine::Bank(code.copy()))?;
    banks.insert(code).unwrap();
    Ok(())
}

/// Adds a PSP behind the lines, which accept it. At want of memory nothing changes.
pub(crate) fn push_psp(
    lines: &mut SetupLines,
    psps: &mut Psps,
    name: PspName,
) -> Result<(), NoMemory>
    requires psps { PspsFit lines.old psps.old.keys }
    requires free { psp_fault lines.old name ≡ None }
    ensures fit { PspsFit lines.new psps.new.keys }
    ensures ok { OnOk result (lines.new ≡ lines.old ++ line.Psp name ∷ []) }
    ensures err { OnErr result (lines.new ≡ lines.old) }
{
    psps.reserve(1)?;
    lines.push(SetupLine::Psp(name.copy()))?;
    psps.insert(name).unwrap();
    Ok(())
}

/// Adds an account behind the lines, which accept it. At want of memory nothing changes.
pub(crate) fn push_account(
    lines: &mut SetupLines,
    banks: &Banks,
    accounts: &mut Accounts,
    account: Account,
) -> Result<(), NoMemory>
    requires banks { BanksFit lines.old banks.now.keys }
    requires accounts { AccountsFit lines.old accounts.old.keys }
    requires free { account_fault lines.old account.ac ≡ None }
    ensures fit { AccountsFit lines.new accounts.new.keys }
    ensures ok { OnOk result (lines.new ≡ lines.old
        ++ line.Account account.ac account.opening account.no_debit account.no_credit ∷ []) }
    ensures err { OnErr result (lines.new ≡ lines.old) }
{
    accounts.reserve(1)?;
    lines.push(SetupLine::Account {
        ac: account.ac.copy(),
        opening: account.opening,
        no_debit: account.no_debit,
        no_credit: account.no_credit,
    })?;
    accounts.insert(account.ac).unwrap();
    Ok(())
}

/// Adds an address behind the lines, which accept it. At want of memory nothing changes.
pub(crate) fn push_address(
    lines: &mut SetupLines,
    psps: &Psps,
    accounts: &Accounts,
    addresses: &mut Addresses,
    addr: Addr,
    listing: Listing,
) -> Result<(), NoMemory>
    requires psps { PspsFit lines.old psps.now.keys }
    requires accounts { AccountsFit lines.old accounts.now.keys }
    requires addresses { AddressesFit lines.old addresses.old.entries }
    requires free { address_fault lines.old addr listing.ac ≡ None }
    ensures fit { AddressesFit lines.new addresses.new.entries }
    ensures ok { OnOk result (lines.new ≡ lines.old ++ line.Address addr listing.ac listing.policy ∷ []) }
    ensures err { OnErr result (lines.new ≡ lines.old) }
{
    addresses.reserve(1)?;
    lines.push(SetupLine::Address {
        addr: addr.copy(),
        ac: listing.ac.copy(),
        policy: listing.policy,
    })?;
    addresses.insert(addr, listing).unwrap();
    Ok(())
}

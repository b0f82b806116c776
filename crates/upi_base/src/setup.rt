//! The setup: banks, PSPs, accounts and addresses.
ghost use Rattle.std.specs.Prelude.{◌≡◌, ◌++◌, IfOk, OnOk, OnErr};
ghost use Rattle.upi_base.specs.Shards.{account_text};
ghost use Rattle.upi_base.specs.Accounts.{account_of};

use crate::code::Policy;
use crate::fault::NoMemory;
use crate::moment::Moment;
use crate::paise::Paise;
use crate::{AcNum, Addr, BankCode, PspName};
use std::alloc::Global;
use std::marker::Model;

/// An account: its bank and its number there. Written `AAAA/1`.
#[derive(Clone, Drop, PartialEq, Eq, PartialOrd, Ord, Hash)]
pub struct AccountRef {
    /// The code of its bank: the first four letters of the IFSC in `Ac.Detail`.
    pub bank: BankCode,
    /// Its number at that bank: the ACNUM in `Ac.Detail`.
    pub num: AcNum,
}

impl AccountRef {
    /// The same account.
    pub fn copy(&self) -> AccountRef
        ensures { result ≡ self.now }
    {
        AccountRef {
            bank: self.bank.copy(),
            num: self.num.copy(),
        }
    }

    /// The account that a text names, if it is the code of a bank, `/`, and the number of an
    /// account.
    pub fn read(text: &[u8]) -> Option<AccountRef>
        ensures { result ≡ account_of text.now }
    {
        if text.len() < 5 || text[4] != b'/' {
            return None;
        }
        let bank = BankCode::read(&text[..4])?;
        let num = AcNum::read(&text[5..])?;
        Some(AccountRef { bank, num })
    }
}

/// Appends an account as it is written: its bank, `/`, its number. It fails only for want of
/// memory, and then changes nothing.
pub fn write_account(ac: &AccountRef, out: &mut Vec<u8>) -> Result<(), NoMemory>
    ensures ok { OnOk result (out.new.items ≡ out.old.items ++ account_text ac.now) }
    ensures err { OnErr result (out.new.items ≡ out.old.items) }
{
    let bank = ac.bank.bytes();
    let num = ac.num.bytes();
    out.reserve(bank.len() + 1 + num.len())?;
    out.extend_from_slice(bank)?;
    out.extend_from_slice(b"/")?;
    out.extend_from_slice(num)?;
    Ok(())
}

/// A line of a setup.
#[derive(Clone, Drop, PartialEq, Eq)]
pub enum SetupLine {
    /// BANK: the code of a bank.
    Bank(BankCode),
    /// PSP: the name of a PSP.
    Psp(PspName),
    /// ACCOUNT: an account of a bank that was given before.
    Account {
        /// Its bank and its number there.
        ac: AccountRef,
        /// What it holds at the start, 0 to 10^15 paise.
        opening: Paise,
        /// NODEBIT: its bank declines debits.
        no_debit: bool,
        /// NOCREDIT: its bank declines credits. A reversal isn't one.
        no_credit: bool,
    },
    /// ADDR: an address of a PSP that was given before.
    Address {
        /// A name, `@`, and the name of the PSP.
        addr: Addr,
        /// The account that it stands for.
        ac: AccountRef,
        /// How the model of that PSP answers for it.
        policy: Policy,
    },
}

impl SetupLine {
    /// The same line.
    pub fn copy(&self) -> SetupLine
        ensures { result ≡ self.now }
    {
        match self {
            SetupLine::Bank(code) => SetupLine::Bank(code.copy()),
            SetupLine::Psp(name) => SetupLine::Psp(name.copy()),
            SetupLine::Account {
                ac,
                opening,
                no_debit,
                no_credit,
            } => SetupLine::Account {
                ac: ac.copy(),
                opening: *opening,
                no_debit: *no_debit,
                no_credit: *no_credit,
            },
            SetupLine::Address { addr, ac, policy } => SetupLine::Address {
                addr: addr.copy(),
                ac: ac.copy(),
                policy: *policy,
            },
        }
    }
}

/// An account as a setup gives it: what it opens with, and which postings it takes.
#[derive(Clone, Drop, PartialEq, Eq)]
pub struct Account {
    /// Its bank and its number there.
    pub ac: AccountRef,
    /// What it holds at the start, 0 to 10^15 paise.
    pub opening: Paise,
    /// Whether its bank declines debits (NODEBIT).
    pub no_debit: bool,
    /// Whether its bank declines credits (NOCREDIT). A reversal isn't one.
    pub no_credit: bool,
}

impl Account {
    /// The same account.
    pub fn copy(&self) -> Account
        ensures { result ≡ self.now }
    {
        Account {
            ac: self.ac.copy(),
            opening: self.opening,
            no_debit: self.no_debit,
            no_credit: self.no_credit,
        }
    }
}

/// What a setup gives for an address: its account, and how its model PSP answers.
#[derive(Clone, Drop, PartialEq, Eq)]
pub struct Listing {
    /// The account that the address stands for.
    pub ac: AccountRef,
    /// How the model of the address's PSP answers for it.
    pub policy: Policy,
}

impl Listing {
    /// The same listing.
    pub fn copy(&self) -> Listing
        ensures { result ≡ self.now }
    {
        Listing {
            ac: self.ac.copy(),
            policy: self.policy,
        }
    }
}

/// The lines of a setup, in order.
#[derive(Drop)]
pub struct SetupLines {
    items: Vec<SetupLine>,
}

impl Model for SetupLines {
    ghost use Rattle.std.specs.Prelude.{List};
    ghost use Rattle.upi_base.specs.declared.setup.SetupLine.{SetupLine};

    ghost Value = { List SetupLine };

    ghost view = { λ s. s.items.items };
}

impl SetupLines {
    ghost use Rattle.std.specs.Prelude.{◌≡◌, ◌++◌, ◌∷◌, [], IfOk, OnOk, OnErr};

    /// No lines.
    pub fn new(alloc: Global) -> SetupLines
        ensures { result ≡ [] }
    {
        SetupLines {
            items: Vec::new(alloc),
        }
    }

    /// These lines.
    pub fn of(items: Vec<SetupLine>) -> SetupLines
        ensures { result ≡ items.items }
    {
        SetupLines { items }
    }

    /// The same lines. It fails only for want of memory.
    pub fn copy(&self, alloc: Global) -> Result<SetupLines, NoMemory>
        ensures { IfOk result (λ x. x ≡ self.now) }
    {
        let mut items = Vec::new(alloc);
        for line in &self.items {
            items.push(line.copy())?;
        }
        Ok(SetupLines { items })
    }

    /// The lines as a slice.
    pub fn items(&self) -> &[SetupLine]
        ensures { result.now ≡ self.now }
    {
        &self.items
    }

    /// The lines as a vector.
    pub fn into_items(self) -> Vec<SetupLine>
        ensures { result.items ≡ self }
    {
        self.items
    }

    /// Adds a line at the end. A refusal changes nothing.
    pub fn push(&mut self, line: SetupLine) -> Result<(), NoMemory>
        ensures ok { OnOk result (self.new ≡ self.old ++ line ∷ []) }
        ensures err { OnErr result (self.new ≡ self.old) }
    {
        self.items.push(line)?;
        Ok(())
    }
}

/// A setup: the moment at which it starts, and its lines.
#[derive(Drop)]
pub struct Setup {
    /// START: in seconds since 1970-01-01T00:00:00Z, 0 to 250,000,000,000.
    pub start: Moment,
    /// Its banks, PSPs, accounts and addresses, in the order in which they are given.
    pub lines: SetupLines,
}

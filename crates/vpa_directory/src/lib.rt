//! The setup by hashed tables: its lines are judged one by one, and its addresses looked up, each in
//! constant time.
//!
//! Contracts see a directory as the setup that it was given, each line of which was accepted behind
//! those before it.
#![tactic(auto)]

ghost use Rattle.std.specs.Prelude.{◌≡◌, ◌++◌, ◌∷◌, [], true, None, MatchOption, IsOkUnless, Err, IfOk, IfErr, OnOk, OnErr};
ghost use Rattle.std.specs.Option.{option_map, option_copied};
ghost use Rattle.upi_base.specs.declared.setup.Listing.{Listing as AListing};
ghost use Rattle.upi_base.specs.Setup.{setup_fault, listing_at, has_psp as has_psp_of, is_setup};
ghost use Rattle.vpa_directory.specs.Faults.{told, IsRefusal};

mod fault;
mod tables;

pub use fault::{At, SetupFault};
use indexmap::{IndexMap, IndexSet};
use std::alloc::Global;
use std::marker::Model;
use tables::{
    Accounts, Addresses, Banks, Psps, account_refusal, address_refusal, bank_refusal, psp_refusal,
    push_account, push_address, push_bank, push_psp,
};
use upi_base::{
    Account, AccountRef, Addr, Listing, Moment, NoMemory, Policy, PspName, Setup, SetupLine,
    SetupLines, Why,
};

/// A setup whose lines were accepted, with tables to look up what they say.
#[derive(Drop)]
pub struct Directory {
    setup: Setup,
    banks: Banks,
    psps: Psps,
    accounts: Accounts,
    addresses: Addresses,
}

impl Model for Directory {
    ghost use Rattle.upi_base.specs.declared.setup.Setup.{Setup};
    ghost use Rattle.vpa_directory.specs.Tables.{IsDirectory};

    ghost Value = { Setup };

    ghost view = { λ d. d.setup };

    ghost invariant = { λ d. IsDirectory d.setup.lines d.banks.keys d.psps.keys d.accounts.keys d.addresses.entries };
}

impl Directory {
    /// A directory with no lines, that starts at this moment. It takes no memory.
    ///
    /// Names are hashed with a fixed seed: whoever writes the lines can choose names that collide,
    /// and so make this directory slow. Who only looks names up can't.
    pub fn new(alloc: Global, start: Moment) -> Directory
        ensures { result ≡ record { start = start; lines = [] } }
    {
        Directory {
            setup: Setup {
                start,
                lines: SetupLines::new(alloc),
            },
            banks: IndexSet::new(alloc),
            psps: IndexSet::new(alloc),
            accounts: IndexSet::new(alloc),
            addresses: IndexMap::new(alloc),
        }
    }

    /// Why a line is refused behind the others, by the first reason of `docs/DEFINITIONS.md`, "The
    /// setup"; `None` exactly where it is accepted there.
    pub fn refusal(&self, line: &SetupLine) -> Option<Why>
        ensures { result ≡ setup_fault self.now.lines line.now }
    {
        match line {
            SetupLine::Bank(code) => bank_refusal(&self.banks, code),
            SetupLine::Psp(name) => psp_refusal(&self.psps, name),
            SetupLine::Account {
                ac,
                opening: _opening,
                no_debit: _no_debit,
                no_credit: _no_credit,
            } => account_refusal(&self.banks, &self.accounts, ac),
            SetupLine::Address {
                addr,
                ac,
                policy: _policy,
            } => address_refusal(&self.psps, &self.accounts, &self.addresses, addr, ac),
        }
    }

    /// Adds a line behind the others. Condition: it is accepted there. At want of memory nothing
    /// changes.
    pub fn push(&mut self, line: SetupLine) -> Result<(), NoMemory>
        requires { setup_fault self.old.lines line ≡ None }
        ensures ok { OnOk result (self.new ≡ record { start = self.old.start; lines = self.old.lines ++ line ∷ [] }) }
        ensures err { OnErr result (self.new ≡ self.old) }
    {
        let lines = &mut self.setup.lines;
        match line {
            SetupLine::Bank(code) => push_bank(lines, &mut self.banks, code),
            SetupLine::Psp(name) => push_psp(lines, &mut self.psps, name),
            SetupLine::Account {
                ac,
                opening,
                no_debit,
                no_credit,
            } => {
                let account = Account {
                    ac,
                    opening,
                    no_debit,
                    no_credit,
                };
                push_account(lines, &self.banks, &mut self.accounts, account)
            }
            SetupLine::Address { addr, ac, policy } => {
                let listing = Listing { ac, policy };
                push_address(
                    lines,
                    &self.psps,
                    &self.accounts,
                    &mut self.addresses,
                    addr,
                    listing,
                )
            }
        }
    }

    /// Adds a line behind the others, where it is accepted there: else it tells the first reason of
    /// `docs/DEFINITIONS.md`, "The setup". A refusal changes nothing.
    pub fn add(&mut self, line: SetupLine) -> Result<(), SetupFault>
        ensures refused { MatchOption (setup_fault self.old.lines line)
            (IsOkUnless result SetupFault.NoMemory) (λ why. result ≡ Err (told why)) }
        ensures ok { OnOk result (self.new ≡ record { start = self.old.start; lines = self.old.lines ++ line ∷ [] }) }
        ensures err { OnErr result (self.new ≡ self.old) }
    {
        if let Some(why) = self.refusal(&line) {
            return Err(fault::told(why));
        }
        self.push(line)?;
        Ok(())
    }

    /// The directory of a whole setup, if each of its lines is accepted behind those before it: else
    /// the first line that isn't, with its reason.
    pub fn build(alloc: Global, setup: Setup) -> Result<Directory, At>
        ensures ok { IfOk result (λ d. d ≡ setup) }
        ensures accepted { IfOk result (λ d. is_setup d.lines ≡ true) }
        ensures refused { IfErr result (IsRefusal setup.lines) }
    {
        let mut directory = Directory::new(alloc, setup.start);
        let mut at = 0;
        'lines: for line in setup.lines.into_items() {
            at += 1;
            if let Err(fault) = directory.add(line) {
                return Err(At { at, fault });
            }
        }
        Ok(directory)
    }

    /// The account of an address, if the setup has the address.
    pub fn find(&self, addr: &Addr) -> Option<&AccountRef>
        ensures { option_copied result ≡ option_map (λ (l : AListing). l.ac) (listing_at self.now.lines addr.now) }
    {
        match self.addresses.get(addr) {
            Some(listing) => Some(&listing.ac),
            None => None,
        }
    }

    /// How the model PSP answers for an address, if the setup has the address.
    pub fn policy(&self, addr: &Addr) -> Option<Policy>
        ensures { result ≡ option_map (λ (l : AListing). l.policy) (listing_at self.now.lines addr.now) }
    {
        match self.addresses.get(addr) {
            Some(listing) => Some(listing.policy),
            None => None,
        }
    }

    /// Whether the setup has the PSP.
    pub fn has_psp(&self, name: &PspName) -> bool
        ensures { result ≡ has_psp_of self.now.lines name.now }
    {
        self.psps.contains(name)
    }

    /// The setup.
    pub fn setup(&self) -> &Setup
        ensures same { result.now ≡ self.now }
        ensures accepted { is_setup self.now.lines ≡ true }
    {
        &self.setup
    }

    /// The setup, alone.
    pub fn into_setup(self) -> Setup
        ensures same { result ≡ self }
        ensures accepted { is_setup self.lines ≡ true }
    {
        self.setup
    }
}

#[cfg(test)]
mod tests;

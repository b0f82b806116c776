//! The accounts of a bank's shard, with their balances.
//!
//! Contracts see a book as the list of its accounts, in the order in which they were added, each
//! with its balance in paise and its flags. `add` takes memory; nothing else does.
#![tactic(auto)]

ghost use Rattle.std.specs.Prelude.{◌≡◌, ◌+◌, ◌-◌, ◌^◌, ◌<◌, ◌≤◌, [], ◌∷◌, ◌++◌, None, Some, is_some, length, IfSome, IsSomeAnd, OnOk, OnErr};
ghost use Rattle.upi_base.specs.declared.setup.AccountRef.{AccountRef as AnAccount};
ghost use Rattle.bank_book.specs.Book.{holding_of, place_of, holding_at, balance_of, no_debit_of, no_credit_of, changed, changed_at};

use indexmap::IndexMap;
use std::alloc::Global;
use std::hash::RandomState;
use std::marker::Model;
use upi_base::{AccountRef, NoMemory, Paise};

/// What an account holds, and which postings it takes.
#[derive(Clone, Copy, Debug, PartialEq, Eq)]
pub struct Holding {
    /// Its balance in paise.
    pub balance: u64,
    /// Whether its bank declines debits.
    pub no_debit: bool,
    /// Whether its bank declines credits. A reversal isn't one.
    pub no_credit: bool,
}

/// Accounts with their balances.
#[derive(Drop)]
pub struct Book {
    accounts: IndexMap<AccountRef, Holding, RandomState>,
}

impl Model for Book {
    ghost use Rattle.bank_book.specs.Book.{Holdings};

    ghost Value = { Holdings };

    ghost view = { λ b. b.accounts.entries };
}

impl Book {
    /// A book with no account. It takes no memory.
    ///
    /// Accounts are hashed with `hashes`, so nobody can choose names that collide.
    pub fn new(alloc: Global, hashes: RandomState) -> Book
        ensures { result ≡ [] }
    {
        Book {
            accounts: IndexMap::with_hasher(alloc, hashes),
        }
    }

    /// Adds an account with what it opens with and its flags. It fails only for want of memory, and
    /// then changes nothing.
    pub fn add(
        &mut self,
        ac: AccountRef,
        opening: Paise,
        no_debit: bool,
        no_credit: bool,
    ) -> Result<(), NoMemory>
        requires { holding_of self.old ac ≡ None }
        ensures ok { OnOk result (self.new ≡ self.old ++
            (ac, record { balance = opening; no_debit = no_debit; no_credit = no_credit }) ∷ []) }
        ensures err { OnErr result (self.new ≡ self.old) }
    {
        let holding = Holding {
            balance: opening.get(),
            no_debit,
            no_credit,
        };
        self.accounts.insert(ac, holding)?;
        Ok(())
    }

    /// The balance of an account in paise, if it is there.
    pub fn balance(&self, ac: &AccountRef) -> Option<u64>
        ensures { result ≡ balance_of self.now ac.now }
    {
        match self.accounts.get(ac) {
            Some(held) => Some(held.balance),
            None => None,
        }
    }

    /// What an account holds and which postings it takes, if it is there: all by one look-up.
    pub fn holding(&self, ac: &AccountRef) -> Option<Holding>
        ensures { result ≡ holding_of self.now ac.now }
    {
        self.accounts.get(ac).copied()
    }

    /// The place of an account in the book, if it is there: the one hashed look-up behind which `at`,
    /// `take_at` and `give_at` need none.
    pub fn find(&self, ac: &AccountRef) -> Option<usize>
        ensures place { result ≡ place_of self.now ac.now }
        ensures found { is_some result ≡ is_some (holding_of self.now ac.now) }
        ensures within { IfSome result (λ place. place < length self.now) }
    {
        self.accounts.get_index_of(ac)
    }

    /// What the account at a place holds and which postings it takes.
    pub fn at(&self, place: usize) -> Holding
        requires { place < length self.now }
        ensures there { holding_at self.now place ≡ Some result }
        ensures holds { (ac : AnAccount) → place_of self.now ac ≡ Some place → holding_of self.now ac ≡ Some result }
    {
        let Some((_ac, held)) = self.accounts.get_index(place) else {
            unreachable!();
        };
        *held
    }

    /// Whether the account is there and its bank declines debits.
    pub fn no_debit(&self, ac: &AccountRef) -> bool
        ensures { result ≡ no_debit_of self.now ac.now }
    {
        match self.accounts.get(ac) {
            Some(held) => held.no_debit,
            None => false,
        }
    }

    /// Whether the account is there and its bank declines credits.
    pub fn no_credit(&self, ac: &AccountRef) -> bool
        ensures { result ≡ no_credit_of self.now ac.now }
    {
        match self.accounts.get(ac) {
            Some(held) => held.no_credit,
            None => false,
        }
    }

    /// Takes an amount from an account that is there and holds as much.
    pub fn take(&mut self, ac: &AccountRef, amount: Paise)
        requires { IsSomeAnd (balance_of self.old ac.now) (λ held. amount ≤ held) }
        ensures { self.new ≡ changed (λ held. held - amount) self.old ac.now }
    {
        let Some(held) = self.accounts.get_mut(ac) else {
            unreachable!();
        };
        held.balance -= amount.get();
    }

    /// Gives an amount to an account that is there, and whose balance stays below 2^62.
    pub fn give(&mut self, ac: &AccountRef, amount: Paise)
        requires { IsSomeAnd (balance_of self.old ac.now) (λ held. held + amount < 2 ^ 62) }
        ensures { self.new ≡ changed (λ held. held + amount) self.old ac.now }
    {
        let Some(held) = self.accounts.get_mut(ac) else {
            unreachable!();
        };
        held.balance += amount.get();
    }

    /// Takes an amount from the account at a place, which holds as much.
    pub fn take_at(&mut self, place: usize, amount: Paise)
        requires { IsSomeAnd (holding_at self.old place) (λ h. amount ≤ h.balance) }
        ensures place { self.new ≡ changed_at (λ held. held - amount) self.old place }
        ensures account { (ac : AnAccount) → place_of self.old ac ≡ Some place → self.new ≡ changed (λ held. held - amount) self.old ac }
    {
        let Some(there) = self.accounts.get_index_mut(place) else {
            unreachable!();
        };
        there.balance -= amount.get();
    }

    /// Gives an amount to the account at a place, whose balance stays below 2^62.
    pub fn give_at(&mut self, place: usize, amount: Paise)
        requires { IsSomeAnd (holding_at self.old place) (λ h. h.balance + amount < 2 ^ 62) }
        ensures place { self.new ≡ changed_at (λ held. held + amount) self.old place }
        ensures account { (ac : AnAccount) → place_of self.old ac ≡ Some place → self.new ≡ changed (λ held. held + amount) self.old ac }
    {
        let Some(there) = self.accounts.get_index_mut(place) else {
            unreachable!();
        };
        there.balance += amount.get();
    }
}

#[cfg(test)]
mod tests;

//! Posting at a bank: each leg of a transaction once.
//!
//! The bank answers a leg at the first arrival of an order for it, at the account that the order
//! names; each later order for it is answered the same and moves nothing. Contracts see the legs
//! that arrived, the book as it is now, and the room. Room is made ahead by `reserve`; nothing else
//! but `open` takes memory.
#![tactic(auto)]

ghost use Rattle.std.specs.Prelude.{◌≡◌, ◌+◌, ◌^◌, ◌<◌, ◌≤◌, ◌∷◌, ◌++◌, [], List, Some, None, false, length, IsSome, IsOk, OnOk, OnErr};
ghost use Rattle.upi_words.specs.Prelude.{Order, Setup};
ghost use Rattle.upi_base.specs.declared.limits.TheConstants.{MAX_AMOUNT};
ghost use Rattle.upi_model.specs.Accounts;
ghost use Rattle.bank_book.specs.Book.{holding_of};
ghost use Rattle.leg_post.specs.Posts.{order, says, is_first, legs_with, book_with, opening, IsBounded, IsOpening, IsPosted};

mod rows;

use bank_book::Book;
use dup_table::DupTable;
use rows::{LegKey, Posting, Table, answer_in, first_answer, move_money};
use std::alloc::Global;
use std::hash::RandomState;
use std::marker::Model;
use upi_base::{Account, AccountRef, Answer, Leg, NoMemory, Paise, TxnId};

/// The legs that arrived at a bank's accounts, and the accounts with what they have.
#[derive(Drop)]
pub struct Posts {
    legs: Table,
    book: Book,
}

impl Model for Posts {
    ghost use Rattle.std.specs.Prelude.{length};
    ghost use Rattle.leg_post.specs.Posts.{Ledger};
    ghost use Rattle.leg_post.specs.calls.Rows.{legs_of, IsWithin};

    ghost Value = { Ledger };

    ghost view = { λ p. record { legs = legs_of p.legs.rows; book = p.book; spare = p.legs.spare } };

    ghost invariant = { λ p. IsWithin (length p.legs.rows) p.book };
}

impl Posts {
    /// Postings over a book, with no leg yet. It takes no memory.
    ///
    /// Legs are hashed with `hashes`, so whoever names transactions can't choose names that collide.
    pub fn new(alloc: Global, hashes: RandomState, book: Book) -> Posts
        requires { IsBounded 0 book }
        ensures legs { result.legs ≡ [] }
        ensures book { result.book ≡ book }
        ensures opens { (S : Setup) → IsOpening S book → IsPosted S [] result }
    {
        Posts {
            legs: DupTable::new(alloc, hashes),
            book,
        }
    }

    /// Adds an account that isn't there, with what it opens with. It fails only for want of memory,
    /// and then changes nothing.
    #[tactic(auto, using(crate::proofs::Opens::within_more))]
    pub fn open(&mut self, account: Account) -> Result<(), NoMemory>
        requires { holding_of self.old.book account.ac ≡ None }
        ensures ok { OnOk result (self.new ≡ record self.old { book = self.old.book ++ (account.ac, opening account) ∷ [] }) }
        ensures err { OnErr result (self.new ≡ self.old) }
    {
        let Account {
            ac,
            opening,
            no_debit,
            no_credit,
        } = account;
        let _sum = opening.get();
        self.book.add(ac, opening, no_debit, no_credit)?;
        Ok(())
    }

    /// Makes room for `n` legs more. It fails only for want of memory; legs and book stay either way.
    pub fn reserve(&mut self, n: usize) -> Result<(), NoMemory>
        ensures ok { OnOk result (n ≤ self.new.spare) }
        ensures ready { n ≤ self.old.spare → IsOk result }
        ensures legs { self.new.legs ≡ self.old.legs }
        ensures book { self.new.book ≡ self.old.book }
        ensures room { self.old.spare ≤ self.new.spare }
    {
        self.legs.reserve(n)
    }

    /// How many legs more there is room for.
    pub fn spare(&self) -> usize
        ensures { result ≡ self.now.spare }
    {
        self.legs.spare()
    }

    /// How many legs have arrived.
    pub fn kept(&self) -> usize
        ensures len { result ≡ length self.now.legs }
        ensures few { result ≤ 2 ^ 31 }
    {
        self.legs.len()
    }

    /// The accounts, with what they have now.
    pub fn book(&self) -> &Book
        ensures { result.now ≡ self.now.book }
    {
        &self.book
    }

    /// How a leg was answered, if an order for it has arrived: one look-up. It takes no memory.
    pub fn answered(&self, txn: &TxnId, leg: Leg) -> Option<Answer>
        ensures answer { result ≡ Accounts.kept_answer self.now.legs txn.now leg }
        ensures definition { (S : Setup) (orders : List Order) → IsPosted S orders self.now → result ≡ Accounts.kept_answer (Accounts.kept S orders) txn.now leg }
    {
        let key = LegKey {
            txn: txn.copy(),
            leg,
        };
        answer_in(&self.legs, &key)
    }

    /// How the bank would answer an order for a leg now. It takes no memory.
    pub fn look(&self, txn: &TxnId, leg: Leg, ac: &AccountRef, amount: Paise) -> Answer
        requires { IsSome (holding_of self.now.book ac.now) }
        ensures answer { Some result ≡ says self.now (order txn.now leg amount ac.now) }
        ensures definition { (S : Setup) (orders : List Order) → IsPosted S orders self.now → Some result ≡ Accounts.kept_says S (Accounts.kept S orders) (order txn.now leg amount ac.now) }
    {
        let key = LegKey {
            txn: txn.copy(),
            leg,
        };
        match answer_in(&self.legs, &key) {
            Some(answer) => answer,
            None => {
                let place = self.book.find(ac).unwrap();
                let held = self.book.at(place);
                first_answer(&self.legs, &key, &held, amount)
            }
        }
    }

    /// Answers an order for a leg. The first one is kept, and moves its amount where it is posted;
    /// each later one is answered as the first was. It takes no memory. The first uses at most one
    /// place of the room, a later one none.
    pub fn post(&mut self, txn: TxnId, leg: Leg, ac: &AccountRef, amount: Paise) -> Answer
        requires room { 0 < self.old.spare }
        requires there { IsSome (holding_of self.old.book ac.now) }
        requires small { amount ≤ MAX_AMOUNT }
        requires few { length self.old.legs < 2 ^ 31 }
        ensures answer { Some result ≡ says self.old (order txn leg amount ac.now) }
        ensures definition { (S : Setup) (orders : List Order) → IsPosted S orders self.old → Some result ≡ Accounts.kept_says S (Accounts.kept S orders) (order txn leg amount ac.now) }
        ensures legs { self.new.legs ≡ legs_with self.old.legs (order txn leg amount ac.now) result }
        ensures book { self.new.book ≡ book_with self.old.legs self.old.book (order txn leg amount ac.now) result }
        ensures room { self.old.spare ≤ self.new.spare + 1 }
        ensures kept { is_first self.old.legs (order txn leg amount ac.now) ≡ false → self.old.spare ≤ self.new.spare }
        ensures stands { (S : Setup) (orders : List Order) → IsPosted S orders self.old → IsPosted S (order txn leg amount ac.now ∷ orders) self.new }
    {
        let key = LegKey { txn, leg };
        if let Some(answer) = answer_in(&self.legs, &key) {
            return answer;
        }
        let place = self.book.find(ac).unwrap();
        let held = self.book.at(place);
        let answer = first_answer(&self.legs, &key, &held, amount);
        move_money(&mut self.book, leg, place, amount, answer);
        let row = Posting {
            amount,
            ac: ac.copy(),
            answer,
        };
        self.legs.add(key, row);
        answer
    }
}

#[cfg(test)]
mod tests;

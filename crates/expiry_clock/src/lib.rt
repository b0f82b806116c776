//! Due moments of transactions, in their order.
//!
//! Contracts see an index as its transactions with their due moments, and its room. Room is made ahead
//! by `reserve`; `set`, `remove`, `get` and `least` take no memory. A hashed table finds a
//! transaction's leaf in a tree in which each node has the lesser of the two numbers below it: so a
//! `set` or `remove` goes up the tree once, `least` is at its top, and `due` goes down only where
//! something is due.
#![tactic(auto)]

ghost use Rattle.std.specs.Prelude.{◌≡◌, ◌+◌, ◌<◌, ◌≤◌, List, ℕ, [], None, Some, if◌then◌else◌, length, ◌↔◌, IsTrue, IsOk, IfOk, OnOk, IsPermutation};
ghost use Rattle.std.specs.List.{IsDistinct};
ghost use Rattle.std.specs.Map.{keys_of};
ghost use Rattle.std.specs.Str.{bytes_eq};
ghost use Rattle.expiry_clock.specs.Dues.{moment_of, least_of, due_rows, IsDueList};

mod tree;

use indexmap::IndexMap;
use std::alloc::Global;
use std::hash::RandomState;
use std::marker::Model;
use tree::{NEVER, Rows, Tree, collect, plant};
use upi_base::{NoMemory, TxnId};

/// At most one due moment for each transaction.
#[derive(Drop)]
pub struct DueIndex {
    rows: Rows,
    tree: Tree,
}

impl Model for DueIndex {
    ghost use Rattle.std.specs.Prelude.{◌-◌, min, length};
    ghost use Rattle.indexmap.specs.IndexMap.{spare};
    ghost use Rattle.expiry_clock.specs.Dues.{Dues};
    ghost use Rattle.expiry_clock.specs.Tree.{IsGrown};

    ghost Value = { Dues };

    ghost view = { λ d. record { rows = d.rows.entries; spare = min (spare d.rows) (d.tree.leaves - length d.rows.entries) } };

    ghost invariant = { λ d. IsGrown d.tree.leaves d.tree.height d.tree.cells.items d.rows.entries };
}

impl DueIndex {
    /// An index with no due moment. It takes no memory.
    ///
    /// Transactions are hashed with `hashes`, so whoever chooses their names can't choose them to
    /// collide.
    pub fn new(alloc: Global, hashes: RandomState) -> DueIndex
        ensures { result.rows ≡ [] }
    {
        DueIndex {
            rows: IndexMap::with_hasher(alloc, hashes),
            tree: Tree {
                cells: Vec::new(alloc),
                leaves: 0,
                height: 0,
            },
        }
    }

    /// Makes room for `n` transactions more. It fails only for want of memory; the due moments stay
    /// either way.
    pub fn reserve(&mut self, n: usize) -> Result<(), NoMemory>
        ensures ok { OnOk result (n ≤ self.new.spare) }
        ensures ready { n ≤ self.old.spare → IsOk result }
        ensures rows { self.new.rows ≡ self.old.rows }
        ensures room { self.old.spare ≤ self.new.spare }
    {
        if n <= self.spare() {
            return Ok(());
        }
        self.rows.reserve(n)?;
        let room = self.rows.capacity();
        if room > self.tree.leaves {
            self.tree = plant(*self.rows.allocator(), &self.rows, room)?;
        }
        Ok(())
    }

    /// How many transactions more there is room for.
    pub fn spare(&self) -> usize
        ensures { result ≡ self.now.spare }
    {
        let len = self.rows.len();
        let spare = self.rows.capacity() - len;
        spare.min(self.tree.leaves - len)
    }

    /// How many transactions have a due moment.
    pub fn len(&self) -> usize
        ensures len { result ≡ length self.now.rows }
        ensures distinct { IsDistinct bytes_eq (keys_of self.now.rows) }
    {
        self.rows.len()
    }

    /// Whether no transaction has a due moment.
    pub fn is_empty(&self) -> bool
        ensures { IsTrue result ↔ (self.now.rows ≡ []) }
    {
        self.rows.is_empty()
    }

    /// Gives a transaction a due moment, in place of the one that it may have had. It takes no
    /// memory, and uses at most one place of the room.
    pub fn set(&mut self, txn: TxnId, due: u64)
        requires { moment_of self.old txn ≡ None → 0 < self.old.spare }
        ensures moments { (q : List ℕ) → moment_of self.new q
            ≡ (if bytes_eq txn q then Some due else moment_of self.old q) }
        ensures room { self.old.spare ≤ self.new.spare + 1 }
    {
        let (at, _had) = self.rows.insert_full(txn, due).unwrap();
        self.tree.write(at, due);
    }

    /// Takes a transaction's due moment away, if it has one. It takes no memory.
    pub fn remove(&mut self, txn: &TxnId)
        ensures moments { (q : List ℕ) → moment_of self.new q
            ≡ (if bytes_eq txn.now q then None else moment_of self.old q) }
        ensures room { self.old.spare ≤ self.new.spare }
    {
        let Some((at, _txn, _due)) = self.rows.swap_remove_full(txn) else {
            return;
        };
        let last = self.rows.len();
        let moved = self.tree.cells[self.tree.leaves + last];
        self.tree.write(at, moved);
        self.tree.write(last, NEVER);
    }

    /// The due moment of a transaction, if it has one.
    pub fn get(&self, txn: &TxnId) -> Option<u64>
        ensures { result ≡ moment_of self.now txn.now }
    {
        self.rows.get(txn).copied()
    }

    /// The least of all due moments, if there is any.
    pub fn least(&self) -> Option<u64>
        ensures { result ≡ least_of self.now.rows }
    {
        let (_txn, first) = self.rows.first()?;
        let least = self.tree.cells[1];
        prove!(least <= *first);
        Some(least)
    }

    /// All that is due at a moment: each due moment that is not after it, with its transaction, by the
    /// moment and then by the bytes of the name. There is one such list. It fails only for want of
    /// memory.
    pub fn due(&self, now: u64) -> Result<Vec<(u64, TxnId)>, NoMemory>
        ensures list { IfOk result (λ found. IsDueList now self.now found.items) }
        ensures only { IfOk result (λ found. (other : List (ℕ × List ℕ)) → IsDueList now self.now other → other ≡ found.items) }
        ensures all { IfOk result (λ found. IsPermutation (due_rows now self.now.rows) found.items) }
    {
        let mut found = Vec::new(*self.rows.allocator());
        if self.rows.len() > 0 {
            collect(&self.rows, &self.tree, 1, self.tree.height, now, &mut found)?;
        }
        found.sort_unstable();
        Ok(found)
    }
}

#[cfg(test)]
mod tests;

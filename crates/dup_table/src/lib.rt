//! The table of first values: what is put first under a key stays.
//!
//! Contracts see a table as its rows, in the order in which they were put, and its room. Room is made
//! ahead by `reserve`; `put` and `get` take no memory.
#![tactic(auto)]

ghost use Rattle.std.specs.Prelude.{◌≡◌, None, ◌+◌, ◌^◌, ◌<◌, ◌≤◌, ◌↔◌, [], length, IsTrue, IsOk, MatchOption, OnOk};
ghost use Rattle.std.specs.List.{IsDistinct};
ghost use Rattle.std.specs.Map.{keys_of};
ghost use Rattle.std.specs.Option.{option_copied};
ghost use Rattle.dup_table.specs.Table.{value_of, with_row};

use indexmap::IndexMap;
use std::alloc::Global;
use std::hash::{Hash, RandomState};
use std::marker::Model;
use upi_base::NoMemory;

/// What a put found.
#[derive(Clone, Copy, Debug, PartialEq, Eq)]
pub enum Put<V> {
    /// The key was new, and has the value now.
    First,
    /// The key had this value, and keeps it.
    Again(V),
}

/// A table that keeps the first value of each key.
#[derive(Drop)]
pub struct DupTable<K: Eq + Hash, V> {
    rows: IndexMap<K, V, RandomState>,
}

impl<K: Eq + Hash, V> Model for DupTable<K, V> {
    ghost use Rattle.indexmap.specs.IndexMap.{spare};
    ghost use Rattle.dup_table.specs.Table.{Table, table_code};

    ghost Value = { Table K V };

    ghost coded = { table_code K.code V.code };

    ghost view = { λ t. record { rows = t.rows.entries; spare = spare t.rows } };
}

impl<K: Eq + Hash + Drop, V: Drop> DupTable<K, V> {
    /// An empty table. It takes no memory.
    ///
    /// Keys are hashed with `hashes`, so whoever chooses the keys can't choose them to collide.
    pub fn new(alloc: Global, hashes: RandomState) -> DupTable<K, V>
        ensures { result.rows ≡ [] }
    {
        DupTable {
            rows: IndexMap::with_hasher(alloc, hashes),
        }
    }

    /// Makes room for `n` keys more. It fails only for want of memory; the rows stay either way.
    pub fn reserve(&mut self, n: usize) -> Result<(), NoMemory>
        ensures ok { OnOk result (n ≤ self.new.spare) }
        ensures ready { n ≤ self.old.spare → IsOk result }
        ensures rows { self.new.rows ≡ self.old.rows }
        ensures room { self.old.spare ≤ self.new.spare }
    {
        self.rows.reserve(n)?;
        Ok(())
    }

    /// How many keys more there is room for.
    pub fn spare(&self) -> usize
        ensures { result ≡ self.now.spare }
    {
        self.rows.capacity() - self.rows.len()
    }

    /// How many keys the table has.
    pub fn len(&self) -> usize
        ensures len { result ≡ length self.now.rows }
        ensures small { result < 2 ^ 63 }
        ensures distinct { IsDistinct K.eq (keys_of self.now.rows) }
    {
        self.rows.len()
    }

    /// Whether the table has no key.
    pub fn is_empty(&self) -> bool
        ensures { IsTrue result ↔ (self.now.rows ≡ []) }
    {
        self.rows.is_empty()
    }

    /// The value of a key: the first that was put under it. It takes no memory.
    pub fn get(&self, key: &K) -> Option<&V>
        ensures { option_copied result ≡ value_of K.eq self.now key.now }
    {
        self.rows.get(key)
    }

    /// Adds a key that isn't there yet, with its value. It hashes the key once, takes no memory, and
    /// uses at most one place of the room.
    pub fn add(&mut self, key: K, value: V)
        requires room { 0 < self.old.spare }
        requires new { value_of K.eq self.old key ≡ None }
        ensures rows { self.new.rows ≡ with_row self.old key value }
        ensures room { self.old.spare ≤ self.new.spare + 1 }
    {
        self.rows.insert(key, value).unwrap();
    }
}

impl<K: Eq + Hash + Drop, V: Copy> DupTable<K, V> {
    /// Puts a value under a key that is new. A key that is there keeps its value, of which `Again`
    /// carries a copy, and then nothing changes. It takes no memory, and uses at most one place of
    /// the room.
    pub fn put(&mut self, key: K, value: V) -> Put<V>
        requires { 0 < self.old.spare }
        ensures put { MatchOption (value_of K.eq self.old key)
            ((result ≡ Put.First) × (self.new.rows ≡ with_row self.old key value))
            (λ kept. (result ≡ Put.Again kept) × (self.new ≡ self.old)) }
        ensures room { self.old.spare ≤ self.new.spare + 1 }
    {
        if let Some(kept) = self.rows.get(&key) {
            return Put::Again(*kept);
        }
        self.add(key, value);
        Put::First
    }
}

#[cfg(test)]
mod tests;

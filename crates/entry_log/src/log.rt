//! The list: what is appended stays, and everything is read by its place or its number.
ghost use Rattle.std.specs.Prelude.{◌≡◌, ◌∷◌, [], length, option_map, OnOk, OnErr};
ghost use Rattle.std.specs.Option.{option_copied};
ghost use Rattle.upi_model.specs.History.{sent_count, message_at};
ghost use Rattle.entry_log.specs.Rows.{entry_at};
ghost use Rattle.entry_log.specs.Views.{shown};

use crate::rows::{Row, between, made_of, row_at, sent_before};
use crate::view::{EntryView, call_view};
use std::alloc::Global;
use std::marker::Model;
use upi_base::{Entry, NoMemory, Sent};

/// The entries of a history and their messages. Contracts see the history, the latest entry first.
#[derive(Drop)]
pub struct Log {
    alloc: Global,
    rows: Vec<Row>,
    messages: Vec<Sent>,
}

impl Model for Log {
    ghost use Rattle.upi_words.specs.Prelude.{History};
    ghost use Rattle.entry_log.specs.Rows.{history_of, IsLog};

    ghost Value = { History };

    ghost view = { λ l. history_of l.rows.items l.messages.items };

    ghost invariant = { λ l. IsLog l.rows.items l.messages.items };
}

impl Log {
    /// A list with no entry. It takes no memory; `alloc` serves what it will keep.
    pub fn new(alloc: Global) -> Log
        ensures { result ≡ [] }
    {
        Log {
            alloc,
            rows: Vec::new(alloc),
            messages: Vec::new(alloc),
        }
    }

    /// How many entries there are.
    #[tactic(auto, using(crate::proofs::Counts::length_is))]
    pub fn len(&self) -> u64
        ensures { result ≡ length self.now }
    {
        self.rows.len() as u64
    }

    /// How many messages were sent.
    pub fn sent_count(&self) -> u64
        ensures { result ≡ sent_count self.now }
    {
        self.messages.as_slice().len() as u64
    }

    /// The message of a number, counted from 1 in the order in which they were sent; `None` exactly
    /// where it wasn't sent.
    pub fn message(&self, n: u64) -> Option<&Sent>
        ensures { option_copied result ≡ message_at self.now n }
    {
        if n == 0 {
            return None;
        }
        self.messages.get(n as usize - 1)
    }

    /// The entry at a place, counted from 1; `None` exactly where there is none.
    pub fn entry(&self, k: u64) -> Option<EntryView<'_>>
        ensures { option_map shown result ≡ entry_at self.now k }
    {
        let rows = self.rows.as_slice();
        let Some(row) = row_at(rows, k) else {
            return None;
        };
        let from = sent_before(rows, k as usize - 1) as usize;
        let messages = self.messages.as_slice();
        Some(EntryView {
            call: call_view(&row.made),
            at: row.at,
            caller: row.caller,
            reply: row.reply,
            sent: between(messages, from, row.upto as usize),
        })
    }

    /// Appends an entry. Where there is no memory, nothing changes.
    pub fn append(&mut self, entry: Entry) -> Result<(), NoMemory>
        ensures ok { OnOk result (self.new ≡ entry ∷ self.old) }
        ensures err { OnErr result (self.new ≡ self.old) }
    {
        let made = made_of(self.alloc, entry.call)?;
        let mut sent = entry.sent.into_items();
        self.rows.reserve(1)?;
        self.messages.append(&mut sent)?;
        let upto = self.messages.as_slice().len() as u64;
        self.rows.push_reserved(Row {
            made,
            at: entry.at,
            caller: entry.caller,
            reply: entry.reply,
            upto,
        });
        Ok(())
    }
}

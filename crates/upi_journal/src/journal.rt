// The journal that threads share.
ghost use Rattle.std.specs.Prelude.{◌≡◌, ℕ, ◌<◌, ◌≤◌, ◌^◌, [], length, drop, IfOk, IfErr, OnErr};
ghost use Rattle.upi_journal.specs.declared.view.Role.TheVariants.{Owner, Caller};
ghost use Rattle.upi_journal.specs.Entries.{entries_in};
ghost use Rattle.upi_journal.specs.Passes.{Keeps, Appended, Refused, Knows, FoundIn, Closes};

use crate::entry::JournalEntry;
use crate::fault::{AppendFault, CloseJournal, Found};
use crate::home::Home;
use crate::name::JournalName;
use crate::pass::{Pass, compare};
use crate::rule::Law;
use crate::start::Start;
use crate::view::View;
use atomic_table::Table;
use std::alloc::{AllocError, Global};
use std::sync::{Mutex, Wait};

/// A journal that threads share: one history, to which owners and callers append.
///
/// Each call that takes `rt` may wait for the journal's lock, and holds it only as long as it works.
#[derive(Drop)]
pub struct Journal<N: JournalName<E>, E: JournalEntry + Drop> {
    table: Table<E, View<E>, Start<E>, Law<E>, Global>,
    home: Mutex<Home<N, E>>,
    ghost named: { table.shared.table_id ≡ N.charter.shape.table },
    ghost words: { N.charter.shape.table.words ≡ 2 },
}

impl<N: JournalName<E>, E: JournalEntry + Drop> Journal<N, E> {
    /// A journal over its table and its history.
    pub(crate) fn of(
        table: Table<E, View<E>, Start<E>, Law<E>, Global>,
        home: Home<N, E>,
    ) -> Journal<N, E>
        requires { (table.shared.table_id ≡ N.charter.shape.table) × (N.charter.shape.table.words ≡ 2) }
    {
        Journal {
            table,
            home: Mutex::new(home),
        }
    }

    /// Appends the entry. The answer is its place, the first being 1: the passes of its owner and of
    /// its caller have it there as their own then, and have seen the history up to it.
    ///
    /// `Full` comes only where the history is as long as the limit, which the caller's pass has then
    /// seen. Out of memory, nothing changes. The entry comes back with either.
    pub fn append<R: Wait>(
        &self,
        rt: &R,
        owner: &mut Pass<N, E>,
        caller: &mut Pass<N, E>,
        entry: E,
    ) -> Result<u64, AppendFault<E>>
        requires owner { owner.old.role ≡ Owner (E.marks.owner entry) }
        requires caller { caller.old.role ≡ Caller (E.marks.caller entry) }
        requires sent { E.marks.sent entry < 2 ^ 31 }
        requires fits { N.charter.fits (entries_in owner.old.mine) entry }
        requires fact { N.charter.fact caller.old.seen entry }
        ensures ok { IfOk result (λ place. Appended place entry owner.old owner.new × Appended place entry caller.old caller.new × (owner.new.seen ≡ caller.new.seen)) }
        ensures err { IfErr result (Refused N.charter.shape.limit entry owner.old owner.new caller.old caller.new) }
        ensures knows { Knows E.marks N.charter owner.new × Knows E.marks N.charter caller.new }
    {
        self.home
            .lock(rt)
            .append(&self.table.shared, owner, caller, entry)
    }

    /// The pass sees the history as the journal then shows it, no less than before. Its length is the
    /// answer.
    pub fn look<R: Wait>(&self, rt: &R, pass: &mut Pass<N, E>) -> u64
        ensures length { result ≡ length pass.new.seen }
        ensures keeps { Keeps pass.old pass.new }
        ensures knows { Knows E.marks N.charter pass.new }
    {
        self.home.lock(rt).look(&self.table.shared, pass)
    }

    /// Both passes see one history, as the journal then shows it, no less than either saw before. Its
    /// length is the answer.
    pub fn meet<R: Wait>(&self, rt: &R, one: &mut Pass<N, E>, other: &mut Pass<N, E>) -> u64
        ensures length { result ≡ length one.new.seen }
        ensures same { one.new.seen ≡ other.new.seen }
        ensures keeps { Keeps one.old one.new × Keeps other.old other.new }
        ensures knows { Knows E.marks N.charter one.new × Knows E.marks N.charter other.new }
    {
        let mut home = self.home.lock(rt);
        home.look(&self.table.shared, one);
        home.look(&self.table.shared, other)
    }

    /// Copies of the entries at the places above `after`, in order, of the history that the pass has
    /// then seen. It takes time for these entries alone. Out of memory, the pass is as before.
    pub fn entries<R: Wait>(
        &self,
        rt: &R,
        pass: &mut Pass<N, E>,
        after: u64,
    ) -> Result<Vec<E>, AllocError>
        ensures ok { IfOk result (λ copies. (copies.items ≡ drop after pass.new.seen) × Keeps pass.old pass.new) }
        ensures err { OnErr result (pass.new ≡ pass.old) }
        ensures knows { Knows E.marks N.charter pass.new }
    {
        self.home.lock(rt).entries(&self.table.shared, pass, after)
    }

    /// Where message `n` is, the first being 1, of the history that the pass has then seen: it takes
    /// as many steps as the length has binary digits. Out of memory, the pass is as before.
    pub fn find<R: Wait>(
        &self,
        rt: &R,
        pass: &mut Pass<N, E>,
        n: u64,
    ) -> Result<Found<E>, AllocError>
        ensures ok { IfOk result (λ found. FoundIn E.marks pass.new.seen n found × Keeps pass.old pass.new) }
        ensures err { OnErr result (pass.new ≡ pass.old) }
        ensures knows { Knows E.marks N.charter pass.new }
    {
        self.home.lock(rt).find(&self.table.shared, pass, n)
    }

    /// The history, with `last` at its end. Whoever calls this is alone with the journal.
    ///
    /// Each pass handed in has as its own just what is its own in the history before `last`. Out of
    /// memory, the passes and `last` come back as they were, and with them the journal, of which
    /// contracts see nothing but its type.
    pub fn close(
        self,
        owners: Vec<Pass<N, E>>,
        passes: Vec<Pass<N, E>>,
        last: Option<E>,
    ) -> Result<Vec<E>, CloseJournal<N, E>>
        ensures ok { IfOk result (λ all. Closes E.marks N.charter owners.items passes.items last all.items) }
        ensures err { IfErr result (λ fault. (fault.owners ≡ owners) × (fault.passes ≡ passes) × (fault.last ≡ last)) }
    {
        let Journal { table, home } = self;
        match home.into_inner().into_parts() {
            Ok((mut entries, mut seat)) => {
                compare(&table.shared, &mut seat, owners);
                compare(&table.shared, &mut seat, passes);
                if let Some(entry) = last {
                    entries.push_reserved(entry);
                }
                Ok(entries)
            }
            Err(home) => Err(CloseJournal {
                journal: Journal::of(table, home),
                owners,
                passes,
                last,
            }),
        }
    }
}

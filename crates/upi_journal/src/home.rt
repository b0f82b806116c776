// What lies behind the journal's lock.
ghost use Rattle.std.specs.Prelude.{◌≡◌, ℕ, ◌+◌, ◌^◌, ◌<◌, ◌≤◌, List, [], ◌∷◌, ◌++◌, length, drop, IfOk, IfErr, OnOk, OnErr};
ghost use Rattle.std.specs.Vec.{vec_len, vec_capacity};
ghost use Rattle.upi_journal.specs.declared.view.Role.TheVariants.{Owner, Caller};
ghost use Rattle.upi_journal.specs.Entries.{entries_in};
ghost use Rattle.upi_journal.specs.Passes.{Keeps, Appended, Refused, Knows, FoundIn};
ghost use Rattle.upi_journal.specs.calls.Seats.{IsHomeSeat, IsHome};

use crate::entry::JournalEntry;
use crate::fault::{AppendFault, Found};
use crate::history::{copies_above, find_message};
use crate::name::JournalName;
use crate::pass::{Pass, admit, show};
use crate::seat::{Board, enter};
use crate::view::View;
use atomic_table::Seat;
use std::alloc::{AllocError, Global};
use std::marker::{Model, PhantomData};

/// The history, how many messages were sent up to each of its entries, and the seat that knows it
/// all. Contracts see the history.
#[derive(Drop)]
pub(crate) struct Home<N: JournalName<E>, E: JournalEntry + Drop> {
    entries: Vec<E>,
    sums: Vec<u64>,
    sent: u64,
    limit: u64,
    seat: Seat<E, View<E>>,
    alloc: Global,
    of: PhantomData<N>,
}

impl<N: JournalName<E>, E: JournalEntry + Drop> Model for Home<N, E> {
    ghost use Rattle.std.specs.Prelude.{List};
    ghost use Rattle.upi_journal.specs.calls.Seats.{IsHome};

    ghost Value = { List E };

    ghost view = { λ h. h.entries.items };

    ghost invariant = { λ h. IsHome E.marks N.charter h.entries.items h.sums.items h.sent h.limit h.seat };
}

/// Makes room for one entry more and its count. It fails only for want of memory.
fn make_room<E>(entries: &mut Vec<E>, sums: &mut Vec<u64>) -> Result<(), AllocError>
    ensures same { (entries.new.items ≡ entries.old.items) × (sums.new.items ≡ sums.old.items) }
    ensures room { OnOk result ((vec_len entries.new < vec_capacity entries.new) × (vec_len sums.new < vec_capacity sums.new)) }
{
    entries.reserve(1)?;
    sums.reserve(1)?;
    Ok(())
}

impl<N: JournalName<E>, E: JournalEntry + Drop> Home<N, E> {
    /// A history with its counts, its limit, and the seat that knows it all.
    pub(crate) fn new(
        alloc: Global,
        entries: Vec<E>,
        sums: Vec<u64>,
        sent: u64,
        limit: u64,
        seat: Seat<E, View<E>>,
    ) -> Home<N, E>
        requires { IsHome E.marks N.charter entries.items sums.items sent limit seat }
        ensures { result ≡ entries.items }
    {
        Home {
            entries,
            sums,
            sent,
            limit,
            seat,
            alloc,
            of: PhantomData,
        }
    }

    /// The length of the history.
    pub(crate) fn len(&self) -> u64
        ensures { result ≡ length self.now }
    {
        self.entries.len() as u64
    }

    /// The pass sees the whole history. Its length is the answer.
    pub(crate) fn look(&mut self, board: &Board<E>, pass: &mut Pass<N, E>) -> u64
        requires board { (board.now.table_id ≡ N.charter.shape.table) × (N.charter.shape.table.words ≡ 2) }
        ensures home { self.new ≡ self.old }
        ensures length { result ≡ length self.old }
        ensures seen { pass.new.seen ≡ self.old }
        ensures keeps { Keeps pass.old pass.new }
        ensures knows { Knows E.marks N.charter pass.new }
    {
        show(board, &mut self.seat, pass);
        self.entries.len() as u64
    }

    /// Copies of the entries at the places above `after`, of the history, which the pass then sees.
    pub(crate) fn entries(
        &mut self,
        board: &Board<E>,
        pass: &mut Pass<N, E>,
        after: u64,
    ) -> Result<Vec<E>, AllocError>
        requires board { (board.now.table_id ≡ N.charter.shape.table) × (N.charter.shape.table.words ≡ 2) }
        ensures ok { IfOk result (λ copies. (copies.items ≡ drop after pass.new.seen) × Keeps pass.old pass.new) }
        ensures err { OnErr result (pass.new ≡ pass.old) }
        ensures knows { Knows E.marks N.charter pass.new }
    {
        pass.recall();
        let copies = copies_above(self.alloc, self.entries.as_slice(), after)?;
        show(board, &mut self.seat, pass);
        Ok(copies)
    }

    /// Where message `n` is, of the history, which the pass then sees.
    pub(crate) fn find(
        &mut self,
        board: &Board<E>,
        pass: &mut Pass<N, E>,
        n: u64,
    ) -> Result<Found<E>, AllocError>
        requires board { (board.now.table_id ≡ N.charter.shape.table) × (N.charter.shape.table.words ≡ 2) }
        ensures ok { IfOk result (λ found. FoundIn E.marks pass.new.seen n found × Keeps pass.old pass.new) }
        ensures err { OnErr result (pass.new ≡ pass.old) }
        ensures knows { Knows E.marks N.charter pass.new }
    {
        pass.recall();
        let found = find_message(
            self.alloc,
            self.entries.as_slice(),
            self.sums.as_slice(),
            self.sent,
            n,
        )?;
        show(board, &mut self.seat, pass);
        Ok(found)
    }

    /// Adds the entry to the history. It is then its owner's and its caller's own.
    pub(crate) fn append(
        &mut self,
        board: &Board<E>,
        owner: &mut Pass<N, E>,
        caller: &mut Pass<N, E>,
        entry: E,
    ) -> Result<u64, AppendFault<E>>
        requires board { (board.now.table_id ≡ N.charter.shape.table) × (N.charter.shape.table.words ≡ 2) }
        requires owner { owner.old.role ≡ Owner (E.marks.owner entry) }
        requires caller { caller.old.role ≡ Caller (E.marks.caller entry) }
        requires sent { E.marks.sent entry < 2 ^ 31 }
        requires fits { N.charter.fits (entries_in owner.old.mine) entry }
        requires fact { N.charter.fact caller.old.seen entry }
        ensures ok { IfOk result (λ place. Appended place entry owner.old owner.new × Appended place entry caller.old caller.new × (owner.new.seen ≡ caller.new.seen)) }
        ensures err { IfErr result (Refused N.charter.shape.limit entry owner.old owner.new caller.old caller.new) }
        ensures knows { Knows E.marks N.charter owner.new × Knows E.marks N.charter caller.new }
    {
        owner.recall();
        caller.recall();
        let count = self.entries.len() as u64;
        if count >= self.limit {
            show(board, &mut self.seat, caller);
            return Err(AppendFault::Full { len: count, entry });
        }
        if make_room(&mut self.entries, &mut self.sums).is_err() {
            return Err(AppendFault::NoMemory(entry));
        }
        admit(board, &mut self.seat, owner, caller, count, &entry);
        self.sent += entry.sent_len();
        self.sums.push_reserved(self.sent);
        self.entries.push_reserved(entry);
        Ok(count + 1)
    }

    /// The entries, with room for one more, and the seat that knows them. Where there is no memory
    /// for that, all comes back.
    pub(crate) fn into_parts(mut self) -> Result<(Vec<E>, Seat<E, View<E>>), Home<N, E>>
        ensures ok { IfOk result (λ parts. (parts.0.items ≡ self) × (vec_len parts.0 < vec_capacity parts.0) × IsHomeSeat E.marks N.charter parts.1 × (parts.1.me.0.seen ≡ self)) }
        ensures err { IfErr result (λ home. home ≡ self) }
    {
        if self.entries.reserve(1).is_err() {
            return Err(self);
        }
        let Home {
            entries,
            sums: _,
            sent: _,
            limit: _,
            seat,
            alloc: _,
            of: _,
        } = self;
        Ok((entries, seat))
    }
}

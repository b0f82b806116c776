// A journal that has no name yet.
ghost use Rattle.std.specs.Prelude.{◌≡◌, ℕ, ◌+◌, ◌^◌, ◌<◌, ◌≤◌, [], IfOk};
ghost use Rattle.upi_journal.specs.Rule.{home_with};
ghost use Rattle.upi_journal.specs.Charter.{IsHistory};
ghost use Rattle.upi_journal.specs.Passes.{owners_over, callers_over};

use crate::entry::JournalEntry;
use crate::home::Home;
use crate::journal::Journal;
use crate::name::JournalName;
use crate::pass::Pass;
use crate::rule::{Law, MakeCaller, MakeOwner};
use crate::seat::Board;
use crate::start::Start;
use crate::view::{Role, View};
use atomic_table::{Seat, Table};
use std::alloc::{AllocError, Global};
use std::marker::{Brand, Model};

/// A journal that has no name yet. Contracts see its table, what it begins with, how many owners and
/// callers will have passes, and its limit.
#[derive(Drop)]
pub struct JournalBlank<E: JournalEntry + Drop> {
    table: Table<E, View<E>, Start<E>, Law<E>, Global>,
    seat: Seat<E, View<E>>,
    start: Start<E>,
    sums: Vec<u64>,
    sent: u64,
    owners: u32,
    callers: u32,
    limit: u64,
    alloc: Global,
}

impl<E: JournalEntry + Drop> Model for JournalBlank<E> {
    ghost use Rattle.upi_journal.specs.Charter.{Shape};
    ghost use Rattle.upi_journal.specs.calls.Seats.{IsBlank};

    ghost Value = { Shape E };

    ghost view = { λ b. record { table = b.table.shared.table_id; before = b.start.before; owners = b.owners; first = b.start.first; callers = b.callers; limit = b.limit } };

    ghost invariant = { λ b. IsBlank E.marks b.start b.sums.items b.sent b.limit b.table.shared.table_id b.seat };
}

/// A pass for each owner below this number.
fn owner_passes<N: JournalName<E>, E: JournalEntry + Drop>(
    alloc: Global,
    board: &Board<E>,
    home: &mut Seat<E, View<E>>,
    count: u32,
) -> Result<Vec<Pass<N, E>>, AllocError>
    requires board { (home.old.table_id ≡ N.charter.shape.table) × (board.now.table_id ≡ N.charter.shape.table) × (N.charter.shape.table.words ≡ 2) }
    requires home { home.old.me ≡ (home_with N.charter.shape.before 0 N.charter.shape.first, []) }
    requires history { IsHistory E.marks N.charter N.charter.shape.before }
    requires count { count ≤ N.charter.shape.owners }
    ensures home { (home.new.table_id ≡ N.charter.shape.table) × IfOk result (λ _. home.new.me ≡ (home_with N.charter.shape.before count N.charter.shape.first, [])) }
    ensures passes { IfOk result (λ passes. passes.items ≡ owners_over E.marks N.charter.shape.before count) }
{
    let mut passes = Vec::with_capacity(alloc, count as usize)?;
    for number in 0..count {
        let seat = board.split_seat::<MakeOwner>(home);
        passes.push(Pass::new(Role::Owner(number), seat))?;
    }
    Ok(passes)
}

/// A pass for each of so many callers, from the first number on.
fn caller_passes<N: JournalName<E>, E: JournalEntry + Drop>(
    alloc: Global,
    board: &Board<E>,
    home: &mut Seat<E, View<E>>,
    owners: u32,
    first: u64,
    count: u32,
) -> Result<Vec<Pass<N, E>>, AllocError>
    requires board { (home.old.table_id ≡ N.charter.shape.table) × (board.now.table_id ≡ N.charter.shape.table) × (N.charter.shape.table.words ≡ 2) }
    requires home { home.old.me ≡ (home_with N.charter.shape.before owners N.charter.shape.first, []) }
    requires history { IsHistory E.marks N.charter N.charter.shape.before }
    requires first { (first ≡ N.charter.shape.first) × (first < 576460752303423488) }
    requires count { count ≤ N.charter.shape.callers }
    ensures home { (home.new.table_id ≡ N.charter.shape.table) × IfOk result (λ _. home.new.me ≡ (home_with N.charter.shape.before owners (N.charter.shape.first + count), [])) }
    ensures passes { IfOk result (λ passes. passes.items ≡ callers_over E.marks N.charter.shape.before N.charter.shape.first count) }
{
    let mut passes = Vec::with_capacity(alloc, count as usize)?;
    for number in 0..count {
        let seat = board.split_seat::<MakeCaller>(home);
        passes.push(Pass::new(Role::Caller(first + u64::from(number)), seat))?;
    }
    Ok(passes)
}

impl<E: JournalEntry + Drop> Journal<Brand, E> {
    /// A journal of an empty history, without a name: for owners and callers of the numbers from 0
    /// on, so many each, and at most `limit` entries. It fails only for want of memory.
    pub fn new(
        alloc: Global,
        owners: u32,
        callers: u32,
        limit: u64,
    ) -> Result<JournalBlank<E>, AllocError>
        requires { limit ≤ 2 ^ 31 }
        ensures begins { IfOk result (λ blank. (blank.before ≡ []) × (blank.first ≡ 0)) }
        ensures numbers { IfOk result (λ blank. (blank.owners ≡ owners) × (blank.callers ≡ callers) × (blank.limit ≡ limit)) }
    {
        let start = Start {
            first: 0,
            entries: Vec::new(alloc),
        };
        let (table, seat) = Table::of_words(alloc, &[0, 0], &start)?;
        Ok(JournalBlank {
            table,
            seat,
            start,
            sums: Vec::new(alloc),
            sent: 0,
            owners,
            callers,
            limit,
            alloc,
        })
    }
}

impl<E: JournalEntry + Drop> JournalBlank<E> {
    /// The journal under its name, the owners' passes and the callers' passes, each in the order of
    /// their numbers. Each has seen what the journal begins with. It fails only for want of memory,
    /// and the blank is gone then.
    pub fn open<N: JournalName<E>>(
        self,
    ) -> Result<(Journal<N, E>, Vec<Pass<N, E>>, Vec<Pass<N, E>>), AllocError>
        requires { self ≡ N.charter.shape }
        ensures owners { IfOk result (λ opened. opened.1.items ≡ owners_over E.marks self.before self.owners) }
        ensures callers { IfOk result (λ opened. opened.2.items ≡ callers_over E.marks self.before self.first self.callers) }
    {
        let JournalBlank {
            table,
            mut seat,
            start,
            sums,
            sent,
            owners,
            callers,
            limit,
            alloc,
        } = self;
        let first = start.first;
        let owner_passes = owner_passes(alloc, &table.shared, &mut seat, owners)?;
        let caller_passes = caller_passes(alloc, &table.shared, &mut seat, owners, first, callers)?;
        let home = Home::new(alloc, start.entries, sums, sent, limit, seat);
        Ok((Journal::of(table, home), owner_passes, caller_passes))
    }
}

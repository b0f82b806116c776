// Passes, and what they see.
ghost use Rattle.std.specs.Prelude.{◌≡◌, ℕ, ◌+◌, ◌<◌, ◌≤◌, ◌^◌, [], ◌∷◌, ◌++◌, length, All};
ghost use mathlib.Core.List.{IsPrefix};
ghost use Rattle.upi_journal.specs.declared.view.Role.TheVariants.{Owner, Caller};
ghost use Rattle.upi_journal.specs.Entries.{entries_in};
ghost use Rattle.upi_journal.specs.Rule.{own};
ghost use Rattle.upi_journal.specs.Passes.{front, front_of, number_of, Appended, Knows, IsWhole};
ghost use Rattle.upi_journal.specs.calls.Seats.{IsHomeSeat};

use crate::entry::JournalEntry;
use crate::name::JournalName;
use crate::seat::{Board, bring, enter, look, tell};
use crate::view::{Role, View};
use atomic_table::Seat;
use std::marker::{Model, PhantomData};

/// A pass of a journal: an owner's or a caller's. Contracts see whose it is, its own entries with
/// their places, and the beginning of the history that it has seen.
///
/// It takes no bytes but its role, and may move to another thread.
#[derive(Drop)]
pub struct Pass<N: JournalName<E>, E: JournalEntry> {
    pub(crate) role: Role,
    pub(crate) seat: Seat<E, View<E>>,
    pub(crate) of: PhantomData<N>,
}

impl<N: JournalName<E>, E: JournalEntry> Model for Pass<N, E> {
    ghost use Rattle.upi_journal.specs.Passes.{Front, front_of};
    ghost use Rattle.upi_journal.specs.calls.Seats.{IsPass};

    ghost Value = { Front E };

    ghost view = { λ p. front_of p.seat.me.0 };

    ghost invariant = { λ p. IsPass E.marks N.charter p.role p.seat };
}

impl<N: JournalName<E>, E: JournalEntry> Pass<N, E> {
    /// A seat that knows what a pass knows, as a pass with its role.
    pub(crate) fn new(role: Role, seat: Seat<E, View<E>>) -> Pass<N, E>
        requires table { (seat.table_id ≡ N.charter.shape.table) × (seat.me.1 ≡ []) }
        requires role { role ≡ seat.me.0.role }
        requires knows { Knows E.marks N.charter (front_of seat.me.0) }
        ensures { result ≡ front_of seat.me.0 }
    {
        Pass {
            role,
            seat,
            of: PhantomData,
        }
    }

    /// Whose it is: an owner's or a caller's, with the number.
    pub fn role(&self) -> Role
        ensures { result ≡ self.now.role }
    {
        self.role
    }

    /// The number of its owner or caller.
    pub fn number(&self) -> u64
        ensures { result ≡ number_of self.now.role }
    {
        match self.role {
            Role::Owner(owner) => u64::from(owner),
            Role::Caller(caller) => caller,
            Role::Home | Role::Note => 0,
        }
    }

    /// What every pass knows: it has seen a history of its journal, and has as its own just its own
    /// entries of that. The function does nothing.
    pub fn recall(&self)
        ensures { Knows E.marks N.charter self.now }
    {
        let _ = &self.role;
    }
}

/// A pass sees all that the home seat has seen.
pub(crate) fn show<N: JournalName<E>, E: JournalEntry>(
    board: &Board<E>,
    home: &mut Seat<E, View<E>>,
    pass: &mut Pass<N, E>,
)
    requires board { (board.now.table_id ≡ N.charter.shape.table) × (N.charter.shape.table.words ≡ 2) }
    requires home { IsHomeSeat E.marks N.charter home.old }
    ensures home { IsHomeSeat E.marks N.charter home.new }
    ensures same { home.new.me.0.seen ≡ home.old.me.0.seen }
    ensures pass { pass.new ≡ front pass.old.role pass.old.mine home.old.me.0.seen }
    ensures longer { IsPrefix pass.old.seen home.old.me.0.seen }
    ensures mine { pass.old.mine ≡ own E.marks pass.old.role home.old.me.0.seen }
    ensures knows { Knows E.marks N.charter pass.new }
{
    tell(board, &mut pass.seat, home);
    look(board, home);
    bring(board, home, &mut pass.seat);
    look(board, &mut pass.seat);
}

/// Each pass has as its own all of its own that the home seat has seen, which begins with what the
/// pass has seen.
pub(crate) fn compare<N: JournalName<E>, E: JournalEntry>(
    board: &Board<E>,
    home: &mut Seat<E, View<E>>,
    passes: Vec<Pass<N, E>>,
)
    requires board { (board.now.table_id ≡ N.charter.shape.table) × (N.charter.shape.table.words ≡ 2) }
    requires home { IsHomeSeat E.marks N.charter home.old }
    ensures home { IsHomeSeat E.marks N.charter home.new }
    ensures same { home.new.me.0.seen ≡ home.old.me.0.seen }
    ensures passes { All (IsWhole E.marks home.old.me.0.seen) passes.items }
{
    for mut pass in passes {
        show(board, home, &mut pass);
    }
}

/// The entry goes into the history that the home seat knows, and its owner's pass and its caller's
/// pass take it.
pub(crate) fn admit<N: JournalName<E>, E: JournalEntry>(
    board: &Board<E>,
    home: &mut Seat<E, View<E>>,
    owner: &mut Pass<N, E>,
    caller: &mut Pass<N, E>,
    count: u64,
    entry: &E,
)
    requires board { (board.now.table_id ≡ N.charter.shape.table) × (N.charter.shape.table.words ≡ 2) }
    requires home { IsHomeSeat E.marks N.charter home.old }
    requires count { (length home.old.me.0.seen ≡ count) × (count < N.charter.shape.limit) × (count < 2 ^ 31) }
    requires owner { owner.old.role ≡ Owner (E.marks.owner entry.now) }
    requires caller { caller.old.role ≡ Caller (E.marks.caller entry.now) }
    requires fits { N.charter.fits (entries_in owner.old.mine) entry.now }
    requires fact { N.charter.fact caller.old.seen entry.now }
    ensures home { IsHomeSeat E.marks N.charter home.new }
    ensures more { home.new.me.0.seen ≡ home.old.me.0.seen ++ entry.now ∷ [] }
    ensures owner { Appended (count + 1) entry.now owner.old owner.new }
    ensures caller { Appended (count + 1) entry.now caller.old caller.new }
    ensures seen { (owner.new.seen ≡ home.new.me.0.seen) × (caller.new.seen ≡ home.new.me.0.seen) }
    ensures knows { Knows E.marks N.charter owner.new × Knows E.marks N.charter caller.new }
{
    show(board, home, owner);
    show(board, home, caller);
    enter(board, home, &mut owner.seat, &mut caller.seat, count, entry);
}

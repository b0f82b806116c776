// The steps of the journal's seats.
//
// They need no lock, no memory, and no history but what their seats know. So a table of the same
// rule may stand without a history beside it.
ghost use Rattle.std.specs.Prelude.{◌≡◌, ℕ, ◌+◌, ◌<◌, ◌≤◌, List, [], ◌∷◌, ◌++◌, ◌^◌, length};
ghost use mathlib.Core.List.{IsPrefix};
ghost use Rattle.upi_journal.specs.declared.view.Role.TheVariants.{Home, Owner, Caller};
ghost use Rattle.upi_journal.specs.Rule.{grown, taken, note_of, told, brought, own};
ghost use Rattle.upi_journal.specs.Passes.{front, front_of};

use crate::entry::JournalEntry;
use crate::rule::{Announce, FromHome, IntoHome, Law, Look, Note, Take};
use crate::start::Start;
use crate::view::View;
use atomic_table::{Seat, Shared};

/// The journal's two words: the length of the history, and its phase.
pub type Board<E> = Shared<E, View<E>, Start<E>, Law<E>>;

/// The home seat adds the entry to the history.
pub fn announce<E: JournalEntry>(
    board: &Board<E>,
    home: &mut Seat<E, View<E>>,
    count: u64,
    entry: &E,
)
    requires board { (home.old.table_id ≡ board.now.table_id) × (board.now.table_id.words ≡ 2) }
    requires home { home.old.me.0.role ≡ Home }
    requires count { (length home.old.me.0.seen ≡ count) × (count + count ≤ home.old.me.0.known) × (count < 2 ^ 31) }
    ensures board { home.new.table_id ≡ home.old.table_id }
    ensures seat { home.new.me ≡ (grown home.old.me.0 entry.now, home.old.me.1) }
{
    board.compare_exchange_with::<Announce>(home, 0, count, count + 1, entry);
}

/// An owner's seat takes the last entry that it has seen.
pub fn take_as_owner<E: JournalEntry>(
    board: &Board<E>,
    seat: &mut Seat<E, View<E>>,
    count: u64,
    entry: &E,
)
    requires board { (seat.old.table_id ≡ board.now.table_id) × (board.now.table_id.words ≡ 2) }
    requires last { (h : List E) × (seat.old.me.0.seen ≡ h ++ entry.now ∷ []) × (length h ≡ count) × (seat.old.me.0.mine ≡ own E.marks (Owner (E.marks.owner entry.now)) h) }
    requires role { seat.old.me.0.role ≡ Owner (E.marks.owner entry.now) }
    requires phase { (count + count ≤ seat.old.me.0.known) × (count < 2 ^ 31) }
    ensures board { seat.new.table_id ≡ seat.old.table_id }
    ensures seat { seat.new.me ≡ (taken seat.old.me.0 (count + 1) entry.now (count + count + 1), seat.old.me.1) }
{
    board.compare_exchange_with::<Take>(seat, 1, count + count, count + count + 1, entry);
}

/// A caller's seat takes the last entry that it has seen.
pub fn take_as_caller<E: JournalEntry>(
    board: &Board<E>,
    seat: &mut Seat<E, View<E>>,
    count: u64,
    entry: &E,
)
    requires board { (seat.old.table_id ≡ board.now.table_id) × (board.now.table_id.words ≡ 2) }
    requires last { (h : List E) × (seat.old.me.0.seen ≡ h ++ entry.now ∷ []) × (length h ≡ count) × (seat.old.me.0.mine ≡ own E.marks (Caller (E.marks.caller entry.now)) h) }
    requires role { seat.old.me.0.role ≡ Caller (E.marks.caller entry.now) }
    requires phase { (count + count + 1 ≤ seat.old.me.0.known) × (count < 2 ^ 31) }
    ensures board { seat.new.table_id ≡ seat.old.table_id }
    ensures seat { seat.new.me ≡ (taken seat.old.me.0 (count + 1) entry.now (count + count + 2), seat.old.me.1) }
{
    let phase = count + count + 1;
    board.compare_exchange_with::<Take>(seat, 1, phase, phase + 1, entry);
}

/// The home seat is told what another seat has seen.
pub fn tell<E: JournalEntry>(
    board: &Board<E>,
    from: &mut Seat<E, View<E>>,
    home: &mut Seat<E, View<E>>,
)
    requires board { (from.old.table_id ≡ board.now.table_id) × (home.old.table_id ≡ board.now.table_id) × (board.now.table_id.words ≡ 2) }
    ensures board { (from.new.table_id ≡ from.old.table_id) × (home.new.table_id ≡ home.old.table_id) }
    ensures from { from.new.me ≡ from.old.me }
    ensures home { home.new.me ≡ (told home.old.me.0 (note_of from.old.me.0), home.old.me.1) }
{
    let note = board.split_seat::<Note>(from);
    board.join_seat::<IntoHome>(home, note);
}

/// A seat takes over what another has seen.
pub fn bring<E: JournalEntry>(
    board: &Board<E>,
    from: &mut Seat<E, View<E>>,
    to: &mut Seat<E, View<E>>,
)
    requires board { (from.old.table_id ≡ board.now.table_id) × (to.old.table_id ≡ board.now.table_id) × (board.now.table_id.words ≡ 2) }
    requires role { to.old.me.0.role ≡ Home → ⊥ }
    ensures board { (from.new.table_id ≡ from.old.table_id) × (to.new.table_id ≡ to.old.table_id) }
    ensures from { from.new.me ≡ from.old.me }
    ensures to { to.new.me ≡ (brought to.old.me.0 (note_of from.old.me.0), to.old.me.1) }
{
    let note = board.split_seat::<Note>(from);
    board.join_seat::<FromHome>(to, note);
}

/// A seat looks at the history's length, which is the answer, and learns what follows from the rule.
/// No seat has seen more, and home has seen just so much.
pub fn look<E: JournalEntry>(board: &Board<E>, seat: &mut Seat<E, View<E>>) -> u64
    requires board { (seat.old.table_id ≡ board.now.table_id) × (board.now.table_id.words ≡ 2) }
    ensures board { (seat.new.table_id ≡ seat.old.table_id) × (seat.new.me ≡ seat.old.me) }
    ensures length { length seat.old.me.0.seen ≤ result }
    ensures home { seat.old.me.0.role ≡ Home → (result ≡ length seat.old.me.0.seen) × IsPrefix seat.old.me.0.old seat.old.me.0.seen }
    ensures mine { length seat.old.me.0.seen + length seat.old.me.0.seen ≤ seat.old.me.0.known → IsPrefix (own E.marks seat.old.me.0.role seat.old.me.0.seen) seat.old.me.0.mine }
{
    board.load::<Look>(seat, 0)
}

/// The entry goes into the history, and its owner and its caller take it.
pub fn enter<E: JournalEntry>(
    board: &Board<E>,
    home: &mut Seat<E, View<E>>,
    owner: &mut Seat<E, View<E>>,
    caller: &mut Seat<E, View<E>>,
    count: u64,
    entry: &E,
)
    requires board { (home.old.table_id ≡ board.now.table_id) × (owner.old.table_id ≡ board.now.table_id) × (caller.old.table_id ≡ board.now.table_id) × (board.now.table_id.words ≡ 2) }
    requires count { (length home.old.me.0.seen ≡ count) × (count + count ≤ home.old.me.0.known) × (count < 2 ^ 31) }
    requires home { home.old.me.0.role ≡ Home }
    requires owner { (owner.old.me.0.role ≡ Owner (E.marks.owner entry.now)) × (owner.old.me.0.mine ≡ own E.marks (Owner (E.marks.owner entry.now)) home.old.me.0.seen) }
    requires caller { (caller.old.me.0.role ≡ Caller (E.marks.caller entry.now)) × (caller.old.me.0.mine ≡ own E.marks (Caller (E.marks.caller entry.now)) home.old.me.0.seen) }
    ensures board { (home.new.table_id ≡ home.old.table_id) × (owner.new.table_id ≡ owner.old.table_id) × (caller.new.table_id ≡ caller.old.table_id) }
    ensures slots { (home.new.me.1 ≡ home.old.me.1) × (owner.new.me.1 ≡ owner.old.me.1) × (caller.new.me.1 ≡ caller.old.me.1) }
    ensures home { (home.new.me.0.role ≡ Home) × (home.new.me.0.seen ≡ home.old.me.0.seen ++ entry.now ∷ []) × (count + count + 2 ≤ home.new.me.0.known) }
    ensures owner { front_of owner.new.me.0 ≡ front owner.old.me.0.role (owner.old.me.0.mine ++ (count + 1, entry.now) ∷ []) (home.old.me.0.seen ++ entry.now ∷ []) }
    ensures caller { front_of caller.new.me.0 ≡ front caller.old.me.0.role (caller.old.me.0.mine ++ (count + 1, entry.now) ∷ []) (home.old.me.0.seen ++ entry.now ∷ []) }
{
    announce(board, home, count, entry);
    bring(board, home, owner);
    take_as_owner(board, owner, count, entry);
    bring(board, owner, caller);
    take_as_caller(board, caller, count, entry);
    tell(board, caller, home);
}

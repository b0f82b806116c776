// The rule of the journal's table, and the kinds of step.
ghost use Rattle.std.specs.Prelude.{◌≡◌};

use crate::entry::JournalEntry;
use crate::start::Start;
use crate::view::View;
use atomic_table::{Join, Play, Split, TableRule};
use std::marker::PhantomData;

/// The rule between any two steps.
pub struct Law<E> {
    of: PhantomData<E>,
}

impl<E: JournalEntry> TableRule<E, View<E>, Start<E>> for Law<E> {
    ghost use Rattle.upi_journal.specs.Rule.{Kept, home_with};

    ghost holds = { λ k s. Kept E.marks k.before s };

    ghost first = { λ k. home_with k.before 0 k.first };
}

/// The home seat adds an entry to the history.
pub struct Announce;

impl<E> Play<E, View<E>> for Announce {
    ghost use Rattle.upi_journal.specs.Rule.{Announces};

    ghost then = { Announces };
}

/// A seat takes the last entry of what it has seen as its own.
pub struct Take;

impl<E> Play<E, View<E>> for Take {
    ghost use Rattle.upi_journal.specs.Rule.{Takes};

    ghost then = { Takes };
}

/// A seat reads the length of the history, and learns what follows from the rule.
pub struct Look;

impl<E: JournalEntry> Play<E, View<E>> for Look {
    ghost use Rattle.upi_journal.specs.Rule.{Looks};

    ghost then = { Looks E.marks };
}

/// A note of what a seat has seen is split off it.
pub struct Note;

impl<E> Split<View<E>> for Note {
    ghost use Rattle.upi_journal.specs.Rule.{note_of};

    ghost left = { λ v. v };

    ghost right = { λ v. note_of v };
}

/// The home seat joins a note, and keeps its own list.
pub struct IntoHome;

impl<E> Join<View<E>> for IntoHome {
    ghost use Rattle.upi_journal.specs.Rule.{told, spent};

    ghost both = { λ v w. told v w };

    ghost spent = { spent };
}

/// A pass's seat joins a note, and takes over the note's list.
pub struct FromHome;

impl<E> Join<View<E>> for FromHome {
    ghost use Rattle.upi_journal.specs.Rule.{brought, spent};

    ghost both = { λ v w. brought v w };

    ghost spent = { spent };
}

/// The home seat splits off a seat for the next owner.
pub struct MakeOwner;

impl<E: JournalEntry> Split<View<E>> for MakeOwner {
    ghost use Rattle.upi_journal.specs.Rule.{owner_more, new_owner};

    ghost left = { λ v. owner_more v };

    ghost right = { λ v. new_owner E.marks v };
}

/// The home seat splits off a seat for the next caller.
pub struct MakeCaller;

impl<E: JournalEntry> Split<View<E>> for MakeCaller {
    ghost use Rattle.upi_journal.specs.Rule.{caller_more, new_caller};

    ghost left = { λ v. caller_more v };

    ghost right = { λ v. new_caller E.marks v };
}

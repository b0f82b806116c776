// Which journal it is, and what may go into it.
use std::marker::Brand;

/// Names a journal.
///
/// What lies behind a lock is known by its type alone, so a journal and its passes have a name in
/// their types. Its one member is seen by contracts alone.
pub trait JournalName<E> {
    ghost use Rattle.upi_journal.specs.Charter.{Charter};

    /// The journal's table, what it begins with, who has a pass, its limit, which entry fits, and
    /// which entry's fact holds.
    ghost charter: { Charter E };
}

impl<E> JournalName<E> for Brand {
    ghost use Rattle.upi_journal.specs.Charter.{no_charter};

    ghost charter = { no_charter };
}

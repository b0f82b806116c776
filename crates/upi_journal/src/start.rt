// What a journal begins with.
use std::marker::Model;

/// What a journal begins with: entries that stand before all others, and the number of the first
/// caller. Contracts see the number and the list.
#[derive(Drop)]
pub struct Start<E> {
    pub(crate) first: u64,
    pub(crate) entries: Vec<E>,
}

impl<E> Model for Start<E> {
    ghost use Rattle.upi_journal.specs.Entries.{Begin};

    ghost Value = { Begin E };

    ghost view = { λ s. record { first = s.first; before = s.entries.items } };
}

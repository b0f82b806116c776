// What a seat of the journal's table knows.
use std::collections::LinkedList;

/// Whose seat it is.
#[derive(Clone, Copy, Debug, PartialEq, Eq)]
pub enum Role {
    /// That of the journal itself, behind its lock. It knows the whole history.
    Home,
    /// That of the owner with this number.
    Owner(u32),
    /// That of the caller with this number.
    Caller(u64),
    /// A note, which is split off another seat and joined away in the same call.
    Note,
}

/// What a seat knows. No value of it is made.
pub struct View<E> {
    /// Whose seat it is.
    pub role: Role,
    /// The beginning of the history that it has seen.
    pub seen: LinkedList<E>,
    /// A beginning of the history that it saw before, or was told of.
    pub old: LinkedList<E>,
    /// A phase that was reached.
    pub known: u64,
    /// Its own entries, each with its place.
    pub mine: LinkedList<(u64, E)>,
    /// Below which number owners' seats were made. The home seat alone counts them.
    pub owners_made: u64,
    /// Below which number callers' seats were made. The home seat alone counts them.
    pub callers_made: u64,
}

// What a journal answers.
use crate::entry::JournalEntry;
use crate::journal::Journal;
use crate::name::JournalName;
use crate::pass::Pass;

/// Why an entry was not appended. It comes back.
#[derive(Debug, Drop)]
pub enum AppendFault<E> {
    /// The history is as long as its limit.
    Full {
        /// The length of the history, in entries.
        len: u64,
        /// The entry that was to be appended.
        entry: E,
    },
    /// There was no memory. The entry was to be appended.
    NoMemory(E),
}

/// Where a message of the history is.
#[derive(Debug, Drop)]
pub enum Found<E> {
    /// An entry sends it.
    At {
        /// The place of that entry, the first being 1.
        place: u64,
        /// Which of the entry's messages it is, the first being 0.
        index: u64,
        /// A copy of the entry.
        entry: E,
    },
    /// There is none of that number.
    Past {
        /// How many messages the history sends.
        sent: u64,
    },
}

/// There was no memory to close a journal. All comes back as it was.
#[derive(Drop)]
pub struct CloseJournal<N: JournalName<E>, E: JournalEntry + Drop> {
    /// The journal.
    pub journal: Journal<N, E>,
    /// The owners' passes.
    pub owners: Vec<Pass<N, E>>,
    /// The callers' passes.
    pub passes: Vec<Pass<N, E>>,
    /// The entry that was to be the last.
    pub last: Option<E>,
}

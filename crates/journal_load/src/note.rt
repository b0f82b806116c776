// What the threads write.
ghost use Rattle.std.specs.Prelude.{◌≡◌};

use std::alloc::{AllocError, Global};
use upi_journal::JournalEntry;

/// How many words a note says. With them it has 128 bytes.
const WORDS: usize = 14;

/// A note of a thread, which numbers its notes from 0 on.
#[derive(Clone, Copy)]
pub struct Note {
    /// The thread's number.
    pub thread: u32,
    /// The note's number.
    pub number: u64,
    /// What it says, which nobody reads. So it is about as large as an entry with a few names is.
    pub text: [u64; WORDS],
}

impl Note {
    /// The note of this thread that has this number.
    pub fn of(thread: u32, number: u64) -> Note
        ensures { (result.thread ≡ thread) × (result.number ≡ number) }
    {
        Note {
            thread,
            number,
            text: [number; WORDS],
        }
    }
}

impl JournalEntry for Note {
    ghost marks = { record { owner = λ n. n.thread; caller = λ n. n.thread; sent = λ n. 0 } };

    fn owner(&self) -> u32 {
        self.thread
    }

    fn caller(&self) -> u64 {
        u64::from(self.thread)
    }

    fn sent_len(&self) -> u64 {
        0
    }

    fn copy(&self, _: Global) -> Result<Note, AllocError> {
        Ok(*self)
    }
}

/// Whether the notes of this thread in the history are those numbered from 0 on, in order, and so
/// many.
pub fn are_in_order(history: &[Note], thread: u32, count: u64) -> bool {
    let mut next = 0;
    for note in history {
        if note.thread == thread {
            if note.number != next {
                return false;
            }
            next = note.number.saturating_add(1);
        }
    }
    next == count
}

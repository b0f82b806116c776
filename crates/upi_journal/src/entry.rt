// What a journal keeps.
ghost use Rattle.std.specs.Prelude.{◌≡◌, IfOk};

use std::alloc::{AllocError, Global};

/// An entry of a journal.
pub trait JournalEntry {
    ghost use Rattle.upi_journal.specs.Entries.{Marks};

    /// What a journal reads of it: its owner, its caller, and how many messages it sends.
    ghost marks: { Marks Self };

    /// The number of its owner, whose entries it has to fit.
    fn owner(&self) -> u32
        ensures { result ≡ marks.owner self.now };

    /// The number of the caller that appends it.
    fn caller(&self) -> u64
        ensures { result ≡ marks.caller self.now };

    /// How many messages it sends.
    fn sent_len(&self) -> u64
        ensures { result ≡ marks.sent self.now };

    /// The same entry once more. It fails only for want of memory.
    fn copy(&self, alloc: Global) -> Result<Self, AllocError>
        ensures { IfOk result (λ entry. entry ≡ self.now) };
}

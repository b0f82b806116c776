// Reading of a history that lies in memory.
ghost use Rattle.std.specs.Prelude.{◌≡◌, ℕ, ◌<◌, ◌≤◌, IfOk, length, drop, slice_index};
ghost use Rattle.upi_journal.specs.Entries.{sent_count, running};
ghost use Rattle.upi_journal.specs.Passes.{FoundIn};

use crate::entry::JournalEntry;
use crate::fault::Found;
use std::alloc::{AllocError, Global};

/// Copies of the entries at the places above `after`, in order.
pub(crate) fn copies_above<E: JournalEntry + Drop>(
    alloc: Global,
    entries: &[E],
    after: u64,
) -> Result<Vec<E>, AllocError>
    ensures { IfOk result (λ copies. copies.items ≡ drop after entries.now) }
{
    let passed = entries.len().min(after as usize);
    let above = &entries[passed..];
    let mut copies = Vec::with_capacity(alloc, above.len())?;
    for entry in above {
        copies.push(entry.copy(alloc)?)?;
    }
    Ok(copies)
}

/// The index of the first count that reaches `n`, or how many there are. The counts rise.
fn first_reaching(sums: &[u64], n: u64) -> usize
    requires { (i j : ℕ) → i ≤ j → j < length sums.now → slice_index sums.now i ≤ slice_index sums.now j }
    ensures bound { result ≤ length sums.now }
    ensures below { (k : ℕ) → k < result → slice_index sums.now k < n }
    ensures above { (k : ℕ) → result ≤ k → k < length sums.now → n ≤ slice_index sums.now k }
{
    sums.partition_point(|sum| *sum < n)
}

/// Where message `n` is, by a search of the running counts.
pub(crate) fn find_message<E: JournalEntry + Drop>(
    alloc: Global,
    entries: &[E],
    sums: &[u64],
    sent: u64,
    n: u64,
) -> Result<Found<E>, AllocError>
    requires sums { sums.now ≡ running E.marks 0 entries.now }
    requires sent { sent ≡ sent_count E.marks entries.now }
    requires length { length entries.now ≤ 2147483648 }
    ensures { IfOk result (FoundIn E.marks entries.now n) }
{
    if n == 0 || n > sent {
        return Ok(Found::Past { sent });
    }
    let at = first_reaching(sums, n);
    let entry = &entries[at];
    let earlier = sums[at] - entry.sent_len();
    Ok(Found::At {
        place: at as u64 + 1,
        index: n - earlier - 1,
        entry: entry.copy(alloc)?,
    })
}

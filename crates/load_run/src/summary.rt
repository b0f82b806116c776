//! The line that sums up a load.
ghost use Rattle.std.specs.Prelude.{◌≡◌, ◌++◌, OnOk};
ghost use Rattle.load_run.specs.Summaries;

use upi_base::{NoMemory, Summary, write_number, write_total};

/// Appends bytes.
fn push(text: &[u8], out: &mut Vec<u8>) -> Result<(), NoMemory>
    ensures { OnOk result (out.new.items ≡ out.old.items ++ text.now) }
{
    out.extend_from_slice(text)?;
    Ok(())
}

/// Appends a word and its number.
fn push_counted(word: &[u8], n: u64, out: &mut Vec<u8>) -> Result<(), NoMemory>
    ensures { OnOk result (out.new.items ≡ out.old.items ++ Summaries.counted word.now n) }
{
    push(b" ", out)?;
    push(word, out)?;
    push(b" ", out)?;
    write_number(n, out)
}

/// Appends how the transactions ended.
#[tactic(auto, unfolding(crate::specs::Summaries::ends_text))]
fn push_ends(summary: &Summary, out: &mut Vec<u8>) -> Result<(), NoMemory>
    ensures { OnOk result (out.new.items ≡ out.old.items ++ Summaries.ends_text summary.now) }
{
    push_counted(b"SUCCESS", summary.success, out)?;
    push_counted(b"FAILURE", summary.failure, out)?;
    push_counted(b"DEEMED", summary.deemed, out)
}

/// Appends items, the money in flight, entries and messages.
#[tactic(auto, unfolding(crate::specs::Summaries::sums_text))]
fn push_sums(summary: &Summary, out: &mut Vec<u8>) -> Result<(), NoMemory>
    ensures { OnOk result (out.new.items ≡ out.old.items ++ Summaries.sums_text summary.now) }
{
    push_counted(b"ITEMS", summary.items, out)?;
    push(b" FLIGHT ", out)?;
    write_total(summary.flight, out)?;
    push_counted(b"ENTRIES", summary.entries, out)?;
    push_counted(b"MESSAGES", summary.messages, out)
}

/// Appends the line that sums up a load of so many payments from a seed, with its line end. It fails
/// only for want of memory; then a part may be appended.
#[tactic(auto, unfolding(crate::specs::Summaries::summary_text))]
pub fn write_summary(
    count: u32,
    seed: u32,
    summary: &Summary,
    out: &mut Vec<u8>,
) -> Result<(), NoMemory>
    ensures { OnOk result (out.new.items ≡ out.old.items ++ Summaries.summary_text count seed summary.now) }
{
    push(b"LOAD ", out)?;
    write_number(u64::from(count), out)?;
    push(b" ", out)?;
    write_number(u64::from(seed), out)?;
    push_ends(summary, out)?;
    push_sums(summary, out)?;
    push(b"\n", out)
}

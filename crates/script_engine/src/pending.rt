//! Which messages wait to be delivered or lost.
ghost use Rattle.std.specs.Prelude.{◌≡◌, ◌==◌, ◌||◌, ◌<◌, ◌≤◌, ℕ, true, false, OnOk, length, vec_len, slice_index_or};
ghost use Rattle.script_engine.specs.calls.Marks.{AreSet};

use std::alloc::Global;
use std::marker::Model;
use upi_base::NoMemory;

/// Marks of the messages that were taken: delivered or lost. Contracts see a mark for each message,
/// from the first on; one without a mark isn't taken.
#[derive(Drop)]
pub(crate) struct Pending {
    taken: Vec<bool>,
    // So many messages from the first on are taken. The search for the lowest pending one begins
    // behind them, so that it goes over each message once.
    passed: usize,
}

impl Model for Pending {
    ghost use Rattle.std.specs.Prelude.{List, Bool};
    ghost use Rattle.script_engine.specs.calls.Marks.{AreSet};

    ghost Value = { List Bool };

    ghost view = { λ p. p.taken.items };

    ghost invariant = { λ p. AreSet p.taken.items p.passed };
}

/// How many marks from the first on are set, where that many are.
fn count_set(marks: &[bool], from: usize) -> usize
    requires { AreSet marks.now from }
    ensures set { AreSet marks.now result }
    ensures last { slice_index_or marks.now result false ≡ false }
{
    for i in from..marks.len() {
        if !marks[i] {
            return i;
        }
    }
    marks.len()
}

/// Adds marks that aren't set, up to a length. Whatever it answers, no mark changes.
fn extend(marks: &mut Vec<bool>, len: usize) -> Result<(), NoMemory>
    ensures len { OnOk result (len ≤ vec_len marks.new) }
    ensures longer { vec_len marks.old ≤ vec_len marks.new }
    ensures same { (k : ℕ) → slice_index_or marks.new.items k false ≡ slice_index_or marks.old.items k false }
{
    for _added in marks.len()..len {
        marks.push(false)?;
    }
    Ok(())
}

impl Pending {
    ghost use Rattle.std.specs.Prelude.{◌≡◌, ◌==◌, ◌||◌, ◌≤◌, ◌-◌, ℕ, [], true, OnOk, length, slice_set};
    ghost use Rattle.script_engine.specs.calls.Marks.{mark, unmarked_from};

    /// No message was taken.
    pub(crate) fn new(alloc: Global) -> Pending
        ensures { result ≡ [] }
    {
        Pending {
            taken: Vec::new(alloc),
            passed: 0,
        }
    }

    /// Makes room for the marks of so many messages.
    pub(crate) fn grow(&mut self, sent: u64) -> Result<(), NoMemory>
        ensures room { OnOk result (sent ≤ length self.new) }
        ensures same { (n : ℕ) → mark self.new n ≡ mark self.old n }
    {
        extend(&mut self.taken, sent as usize)
    }

    /// Message n is taken. Condition: there is room for its mark.
    pub(crate) fn take(&mut self, n: u64)
        requires first { 1 ≤ n }
        requires room { n ≤ length self.old }
        ensures { self.new ≡ slice_set self.old (n - 1) true }
    {
        self.taken[n as usize - 1] = true;
    }

    /// The lowest message that wasn't taken, of so many that were sent.
    pub(crate) fn lowest(&mut self, sent: u64) -> Option<u64>
        ensures same { self.new ≡ self.old }
        ensures lowest { result ≡ unmarked_from self.old 1 sent }
    {
        self.passed = count_set(&self.taken, self.passed);
        let passed = self.passed as u64;
        if passed >= sent {
            return None;
        }
        Some(passed + 1)
    }
}

//! The status of a transaction, and how often its outcome is confirmed.
//!
//! Nothing here takes memory. Contracts see a `Confirm` as its fields, and say by the rules of the
//! model what it has to do with a transaction (`specs/Confirms.antt`).
#![tactic(auto)]

ghost use Rattle.std.specs.Prelude.{◌≡◌, ◌<◌, true, false, IfSome};
ghost use Rattle.upi_model.specs.Replies;
ghost use Rattle.status_check.specs.Confirms;
ghost use Rattle.status_check.specs.calls.Dues;

use upi_base::{DUE_SECONDS, MAX_CONFIRMATIONS, Moment, Outcome, Reply};

/// The reply to a PSP of either side that asks for the status: the outcome, or pending.
pub fn status(outcome: Option<Outcome>) -> Reply
    ensures status { result ≡ Reply.Status outcome }
    ensures rules { Confirms.IsStatus outcome result }
{
    Reply::Status(outcome)
}

/// An outcome that the asked PSP was told: when last, how often, and whether it answered.
#[derive(Clone, Copy)]
pub struct Confirm {
    last: Moment,
    count: u8,
    answered: bool,
}

impl Confirm {
    /// The outcome is told now, for the first time.
    #[tactic(auto, using(crate::proofs::Confirms::begins))]
    pub fn begin(now: Moment) -> Confirm
        ensures confirm { result ≡ record { last = now; count = 1; answered = false } }
        ensures begins { Confirms.Begins result now }
    {
        Confirm {
            last: now,
            count: 1,
            answered: false,
        }
    }

    // When it is told again, while it may be.
    fn next(&self) -> Option<u64>
        ensures due { result ≡ Dues.due_at self.now }
        ensures few { IfSome result (λ _. self.now.count < MAX_CONFIRMATIONS) }
    {
        if usize::from(self.count) < MAX_CONFIRMATIONS && !self.answered {
            Some(self.last.get() + DUE_SECONDS)
        } else {
            None
        }
    }

    /// A look whether it is due: whether it is told again, now. If it isn't, nothing changes.
    #[tactic(auto, using(crate::proofs::Confirms::lates))]
    pub fn late(&mut self, now: Moment) -> bool
        ensures lates { Confirms.Lates self.old self.new result now }
    {
        match self.next() {
            Some(due) => {
                if due <= now.get() {
                    self.last = now;
                    self.count += 1;
                    true
                } else {
                    false
                }
            }
            None => false,
        }
    }

    /// The asked PSP says that it was told: from now on it isn't told again.
    #[tactic(auto, using(crate::proofs::Confirms::answers))]
    pub fn answered(&mut self)
        ensures confirm { self.new ≡ record self.old { answered = true } }
        ensures answers { Confirms.Answers self.old self.new }
    {
        self.answered = true;
    }

    /// When it is told again, in seconds, if it is: 30 seconds after the last time, as long as it was
    /// told fewer than four times and the asked PSP hasn't answered.
    #[tactic(auto, using(crate::proofs::Confirms::has_due))]
    pub fn due(&self) -> Option<u64>
        ensures { Confirms.HasDue self.now result }
    {
        self.next()
    }
}

#[cfg(test)]
mod tests;

//! The machine of a COLLECT: the payee's PSP asks for it, and the payer's PSP is asked.
//!
//! It is the machine of `txn_machine`, begun as a COLLECT; contracts see that machine.
#![tactic(auto)]

ghost use Rattle.std.specs.Prelude.{◌≡◌};
ghost use Rattle.txn_machine.specs.Follows;
ghost use Rattle.txn_machine.specs.Stands;

use std::marker::Model;
use txn_machine::Machine;
pub use txn_machine::{Move, Wants};
use upi_base::{Answer, Kind, Leg, Minutes, Moment, Outcome, Paise, Phase, Reply};

/// A COLLECT, from its opening on.
#[derive(Clone, Copy)]
pub struct CollectMachine {
    machine: Machine,
}

impl Model for CollectMachine {
    ghost use Rattle.txn_machine.specs.declared.machine.Machine.{Machine};

    ghost Value = { Machine };

    ghost view = { λ c. c.machine };

    ghost inverse = { λ m. record { machine = m } };
}

impl CollectMachine {
    /// The machine of a COLLECT that opens now. Its answer is due after so many minutes.
    pub fn begin(amount: Paise, now: Moment, minutes: Minutes) -> CollectMachine
        ensures machine { result ≡ Stands.begun Kind.Collect amount now minutes }
        ensures begins { Follows.Begins result Kind.Collect amount now minutes }
    {
        CollectMachine {
            machine: Machine::begin(Kind::Collect, amount, now, minutes),
        }
    }

    /// The asked PSP answers with a yes or a no to an amount, and with no account that differs from
    /// the setup's. It decides if it comes before the due moment, while it is awaited, and is of the
    /// amount; else nothing changes, and nothing is sent.
    pub fn hear_auth(&mut self, amount: Paise, yes: bool, now: Moment) -> Move
        ensures follows { Follows.HearsAuth self.old self.new result amount yes now }
        ensures tells { Follows.Tells self.old self.new result }
        ensures quiet { result.wants ≡ Wants.Nothing → self.new ≡ self.old }
        ensures ended { (x : Stands.Transaction) → Stands.IsOf self.old x → Follows.IsOver self.old x → result.wants ≡ Wants.Nothing }
    {
        self.machine.hear_auth(amount, yes, now)
    }

    /// A bank answers to a leg. It counts if the leg is awaited, at whatever moment; else nothing
    /// changes, and nothing is sent.
    pub fn hear_leg(&mut self, leg: Leg, answer: Answer, now: Moment) -> Move
        ensures follows { Follows.HearsLeg self.old self.new result leg answer now }
        ensures tells { Follows.Tells self.old self.new result }
        ensures quiet { result.wants ≡ Wants.Nothing → self.new ≡ self.old }
        ensures ended { (x : Stands.Transaction) → Stands.IsOf self.old x → Follows.IsOver self.old x → result.wants ≡ Wants.Nothing }
    {
        self.machine.hear_leg(leg, answer, now)
    }

    /// A look whether it is due: if it is, what is awaited has not come in time, and a reversal that
    /// is awaited is ordered again. Else, and always once there is an outcome, it isn't due, nothing
    /// changes, and nothing is sent.
    pub fn late(&mut self, now: Moment) -> Move
        ensures follows { Follows.Lates self.old self.new result now }
        ensures tells { Follows.Tells self.old self.new result }
        ensures quiet { result.wants ≡ Wants.Nothing → self.new ≡ self.old }
        ensures ended { (x : Stands.Transaction) → Stands.IsOf self.old x → Follows.IsOver self.old x → result ≡ record { reply = Reply.NotDue; wants = Wants.Nothing } }
    {
        self.machine.late(now)
    }

    /// The switch closes: what is awaited has ended, nothing is sent, and there is an outcome.
    pub fn close(&mut self) -> Move
        ensures follows { Follows.Closes self.old self.new result }
        ensures answer { result ≡ record { reply = Reply.Closed; wants = Wants.Nothing } }
        ensures ended { Follows.IsEnded self.new }
    {
        self.machine.close()
    }

    /// The outcome, if there is one.
    pub fn outcome(&self) -> Option<Outcome>
        ensures { Follows.HasOutcome self.now result }
    {
        self.machine.outcome()
    }

    /// When it is due, in seconds, if anything is awaited: the answer of the asked PSP, of a leg or of
    /// the reversal.
    pub fn due(&self) -> Option<u64>
        ensures { Follows.HasDue self.now result }
    {
        self.machine.due()
    }

    /// What it waits for.
    pub fn phase(&self) -> Phase
        ensures { Follows.HasPhase self.now result }
    {
        self.machine.phase()
    }
}

#[cfg(test)]
mod tests;

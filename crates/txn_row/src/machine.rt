//! The machine of a row: that of a PAY, or that of a COLLECT.
ghost use Rattle.std.specs.Prelude.{◌≡◌};
ghost use Rattle.txn_machine.specs.Follows;
ghost use Rattle.txn_machine.specs.Stands;
ghost use Rattle.txn_machine.specs.declared.moves.Wants.{Wants};
ghost use Rattle.upi_words.specs.Prelude.{Reply};
ghost use Rattle.txn_row.specs.Rows.{machine_in};

use collect_machine::CollectMachine;
use pay_machine::{Move, PayMachine};
use upi_base::{Answer, Kind, Leg, Minutes, Moment, Outcome, Paise, Phase};

/// The machine of a transaction, by its kind.
#[derive(Clone, Copy)]
pub enum RowMachine {
    /// It is a PAY.
    Pay(PayMachine),
    /// It is a COLLECT.
    Collect(CollectMachine),
}

impl RowMachine {
    /// The machine of a transaction that opens now.
    pub(crate) fn begin(kind: Kind, amount: Paise, now: Moment, minutes: Minutes) -> RowMachine
        ensures machine { machine_in result ≡ Stands.begun kind amount now minutes }
        ensures begins { Follows.Begins (machine_in result) kind amount now minutes }
    {
        match kind {
            Kind::Pay => RowMachine::Pay(PayMachine::begin(amount, now, minutes)),
            Kind::Collect => RowMachine::Collect(CollectMachine::begin(amount, now, minutes)),
        }
    }

    /// The machine after an answer of the asked PSP, with no account that differs from the setup's.
    pub(crate) fn heard_auth(&self, amount: Paise, yes: bool, now: Moment) -> (RowMachine, Move)
        ensures follows { Follows.HearsAuth (machine_in self.now) (machine_in result.0) result.1 amount yes now }
        ensures tells { Follows.Tells (machine_in self.now) (machine_in result.0) result.1 }
        ensures ended { (x : Stands.Transaction) → Stands.IsOf (machine_in self.now) x → Follows.IsOver (machine_in self.now) x → result.1.wants ≡ Wants.Nothing }
    {
        match self {
            RowMachine::Pay(machine) => {
                let mut machine = *machine;
                let moved = machine.hear_auth(amount, yes, now);
                (RowMachine::Pay(machine), moved)
            }
            RowMachine::Collect(machine) => {
                let mut machine = *machine;
                let moved = machine.hear_auth(amount, yes, now);
                (RowMachine::Collect(machine), moved)
            }
        }
    }

    /// The machine after a bank's answer to a leg.
    pub(crate) fn heard_leg(&self, leg: Leg, answer: Answer, now: Moment) -> (RowMachine, Move)
        ensures follows { Follows.HearsLeg (machine_in self.now) (machine_in result.0) result.1 leg answer now }
        ensures tells { Follows.Tells (machine_in self.now) (machine_in result.0) result.1 }
        ensures ended { (x : Stands.Transaction) → Stands.IsOf (machine_in self.now) x → Follows.IsOver (machine_in self.now) x → result.1.wants ≡ Wants.Nothing }
    {
        match self {
            RowMachine::Pay(machine) => {
                let mut machine = *machine;
                let moved = machine.hear_leg(leg, answer, now);
                (RowMachine::Pay(machine), moved)
            }
            RowMachine::Collect(machine) => {
                let mut machine = *machine;
                let moved = machine.hear_leg(leg, answer, now);
                (RowMachine::Collect(machine), moved)
            }
        }
    }

    /// The machine after a look whether it is due.
    pub(crate) fn late(&self, now: Moment) -> (RowMachine, Move)
        ensures follows { Follows.Lates (machine_in self.now) (machine_in result.0) result.1 now }
        ensures tells { Follows.Tells (machine_in self.now) (machine_in result.0) result.1 }
    {
        match self {
            RowMachine::Pay(machine) => {
                let mut machine = *machine;
                let moved = machine.late(now);
                (RowMachine::Pay(machine), moved)
            }
            RowMachine::Collect(machine) => {
                let mut machine = *machine;
                let moved = machine.late(now);
                (RowMachine::Collect(machine), moved)
            }
        }
    }

    /// The machine after a Close.
    pub(crate) fn closed(&self) -> RowMachine
        ensures { Follows.Closes (machine_in self.now) (machine_in result) (record { reply = Reply.Closed; wants = Wants.Nothing }) }
    {
        match self {
            RowMachine::Pay(machine) => {
                let mut machine = *machine;
                let _moved = machine.close();
                RowMachine::Pay(machine)
            }
            RowMachine::Collect(machine) => {
                let mut machine = *machine;
                let _moved = machine.close();
                RowMachine::Collect(machine)
            }
        }
    }

    /// The outcome, if there is one.
    pub(crate) fn outcome(&self) -> Option<Outcome>
        ensures { Follows.HasOutcome (machine_in self.now) result }
    {
        match self {
            RowMachine::Pay(machine) => machine.outcome(),
            RowMachine::Collect(machine) => machine.outcome(),
        }
    }

    /// When it is due, in seconds, its confirmations aside.
    pub(crate) fn due(&self) -> Option<u64>
        ensures { Follows.HasDue (machine_in self.now) result }
    {
        match self {
            RowMachine::Pay(machine) => machine.due(),
            RowMachine::Collect(machine) => machine.due(),
        }
    }

    /// What it waits for.
    pub(crate) fn phase(&self) -> Phase
        ensures { Follows.HasPhase (machine_in self.now) result }
    {
        match self {
            RowMachine::Pay(machine) => machine.phase(),
            RowMachine::Collect(machine) => machine.phase(),
        }
    }
}

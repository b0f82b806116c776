//! A machine of either kind, and what happens to it.
use collect_machine::CollectMachine;
use pay_machine::{Move, PayMachine, Wants};
use std::test::Fail;
use upi_base::{Answer, Kind, Leg, Minutes, Moment, Outcome, Paise, Phase, Reply};

/// What may happen to a machine.
#[derive(Clone, Copy)]
pub enum What {
    /// The asked PSP says yes or no to an amount.
    Says { amount: u64, yes: bool },
    /// A bank answers to a leg.
    Answers { leg: Leg, answer: Answer },
    /// It is looked whether it is due.
    Late,
    /// The switch closes.
    Close,
}

/// How a machine stands after it.
#[derive(Clone, Copy)]
pub enum After {
    /// It waits, and is due then.
    Waits(Phase, u64),
    /// It has its outcome.
    Ends(Outcome),
}

/// What happens, at which second, and what it must come to.
#[derive(Clone, Copy)]
pub struct Row(pub What, pub u64, pub Reply, pub Wants, pub After);

/// A machine of either kind.
#[derive(Drop)]
pub enum Driven {
    Pay(PayMachine),
    Collect(CollectMachine),
}

impl Driven {
    /// A machine of 50.00 that opens at 1000; a COLLECT has one minute.
    pub fn begin(kind: Kind) -> Result<Driven, Fail> {
        let amount = Paise::of(5000).ok_or("an amount")?;
        let now = Moment::of(1000).ok_or("a moment")?;
        let minutes = Minutes::of(1).ok_or("minutes")?;
        match kind {
            Kind::Pay => Ok(Driven::Pay(PayMachine::begin(amount, now, minutes))),
            Kind::Collect => Ok(Driven::Collect(CollectMachine::begin(amount, now, minutes))),
        }
    }

    fn says(&mut self, amount: Paise, yes: bool, now: Moment) -> Move {
        match self {
            Driven::Pay(machine) => machine.hear_auth(amount, yes, now),
            Driven::Collect(machine) => machine.hear_auth(amount, yes, now),
        }
    }

    fn answers(&mut self, leg: Leg, answer: Answer, now: Moment) -> Move {
        match self {
            Driven::Pay(machine) => machine.hear_leg(leg, answer, now),
            Driven::Collect(machine) => machine.hear_leg(leg, answer, now),
        }
    }

    fn late(&mut self, now: Moment) -> Move {
        match self {
            Driven::Pay(machine) => machine.late(now),
            Driven::Collect(machine) => machine.late(now),
        }
    }

    fn close(&mut self) -> Move {
        match self {
            Driven::Pay(machine) => machine.close(),
            Driven::Collect(machine) => machine.close(),
        }
    }

    /// What the machine answers.
    pub fn happens(&mut self, what: What, at: u64) -> Result<Move, Fail> {
        let now = Moment::of(at).ok_or("a moment")?;
        match what {
            What::Says { amount, yes } => {
                let amount = Paise::of(amount).ok_or("an amount")?;
                Ok(self.says(amount, yes, now))
            }
            What::Answers { leg, answer } => Ok(self.answers(leg, answer, now)),
            What::Late => Ok(self.late(now)),
            What::Close => Ok(self.close()),
        }
    }

    fn phase(&self) -> Phase {
        match self {
            Driven::Pay(machine) => machine.phase(),
            Driven::Collect(machine) => machine.phase(),
        }
    }

    fn due(&self) -> Option<u64> {
        match self {
            Driven::Pay(machine) => machine.due(),
            Driven::Collect(machine) => machine.due(),
        }
    }

    fn outcome(&self) -> Option<Outcome> {
        match self {
            Driven::Pay(machine) => machine.outcome(),
            Driven::Collect(machine) => machine.outcome(),
        }
    }

    /// Whether the machine stands so.
    pub fn stands(&self, after: After) -> bool {
        match after {
            After::Waits(phase, due) => {
                self.phase() == phase && self.due() == Some(due) && self.outcome() == None
            }
            After::Ends(outcome) => {
                self.phase() == Phase::Ended
                    && self.due() == None
                    && self.outcome() == Some(outcome)
            }
        }
    }
}

//! The machine: what happens to it, and how it stands.
ghost use Rattle.std.specs.Prelude.{◌≡◌, nat_le};
ghost use Rattle.upi_model.specs.Dues;
ghost use Rattle.upi_model.specs.Places;
ghost use Rattle.txn_machine.specs.Follows;
ghost use Rattle.txn_machine.specs.Stands;
ghost use Rattle.txn_machine.specs.calls.Steps;

use crate::legs::{closed, goes, leg_answered, overdue, stays};
use crate::moves::{Move, Step, Wants};
use crate::stage::{Stage, late_code};
use upi_base::{
    Answer, Code, DUE_SECONDS, Kind, Leg, Minutes, Moment, Outcome, Paise, Phase, Reply,
};

/// A transaction from its opening on.
///
/// It knows its kind, its amount in paise, the moment in seconds from which an answer of the asked
/// PSP is too late, and its stage. It takes no memory.
#[derive(Clone, Copy)]
pub struct Machine {
    kind: Kind,
    amount: Paise,
    due: u64,
    stage: Stage,
}

// When the question is due.
fn due_from(kind: Kind, now: &Moment, minutes: &Minutes) -> u64
    ensures { result ≡ Places.due_from kind now.now minutes.now }
{
    match kind {
        Kind::Pay => now.get() + DUE_SECONDS,
        Kind::Collect => now.get() + 60 * u64::from(minutes.get()),
    }
}

// Whether there is a due moment, and it has come.
fn is_past(due: Option<u64>, now: Moment) -> bool
    ensures { result ≡ Dues.passed now due }
{
    match due {
        None => false,
        Some(due) => due <= now.get(),
    }
}

// A no or a yes to a question that waits for it.
fn decides(yes: bool, now: Moment) -> Step
    ensures { result ≡ Steps.decides yes now }
{
    if yes {
        goes(Stage::Debiting { approved: now }, Wants::Debit)
    } else {
        goes(Stage::Declined, Wants::Outcome)
    }
}

// The reply to an answer that says the word which decided, or the other one.
fn repeats(same: bool) -> Reply
    ensures { result ≡ Steps.repeats same }
{
    if same {
        Reply::Ack(None)
    } else {
        Reply::Ack(Some(Code::Dup))
    }
}

impl Machine {
    /// The machine of a transaction that opens now. Its answer may take those minutes if it is a
    /// COLLECT, and 30 seconds if it is a PAY, whose minutes don't matter.
    #[tactic(auto, using(crate::proofs::Begins::begins))]
    pub fn begin(kind: Kind, amount: Paise, now: Moment, minutes: Minutes) -> Machine
        ensures machine { result ≡ Stands.begun kind amount now minutes }
        ensures begins { Follows.Begins result kind amount now minutes }
    {
        Machine {
            kind,
            amount,
            due: due_from(kind, &now, &minutes),
            stage: Stage::Asking,
        }
    }

    // An answer of the asked PSP, of the right amount.
    fn answered(&self, yes: bool, now: Moment) -> Step
        ensures { result ≡ Steps.answered (nat_le self.now.due now) self.now.kind yes now self.now.stage }
    {
        let late = Reply::Ack(Some(late_code(self.kind)));
        match &self.stage {
            Stage::Asking => {
                if self.due <= now.get() {
                    stays(&self.stage, late)
                } else {
                    decides(yes, now)
                }
            }
            Stage::Declined => stays(&self.stage, repeats(!yes)),
            Stage::Unanswered => stays(&self.stage, late),
            Stage::ClosedAsking => stays(&self.stage, late),
            _ => stays(&self.stage, repeats(yes)),
        }
    }

    // An answer of the asked PSP.
    fn auth_step(&self, amount: Paise, yes: bool, now: Moment) -> Step
        ensures { result ≡ Steps.auth_step self.now amount yes now }
    {
        if amount == self.amount {
            self.answered(yes, now)
        } else {
            stays(&self.stage, Reply::Ack(Some(Code::Amt)))
        }
    }

    // A look whether it is due.
    fn late_step(&self, now: Moment) -> Step
        ensures { result ≡ Steps.late_step self.now now }
    {
        if is_past(self.stage.due(self.due), now) {
            overdue(&self.stage, now)
        } else {
            stays(&self.stage, Reply::NotDue)
        }
    }

    // Goes to the stage of a step.
    fn take(&mut self, step: Step) -> Move
        ensures machine { self.new ≡ Steps.taken self.old step }
        ensures answer { result ≡ Steps.move_of step }
    {
        self.stage = step.stage;
        Move {
            reply: step.reply,
            wants: step.wants,
        }
    }

    /// The asked PSP answers with a yes or a no to an amount, and with no account that differs from
    /// the setup's.
    ///
    /// The answer decides if it comes while it is awaited, before the due moment, and is of the
    /// amount. Else nothing changes, and nothing is sent.
    pub fn hear_auth(&mut self, amount: Paise, yes: bool, now: Moment) -> Move
        ensures follows { Follows.HearsAuth self.old self.new result amount yes now }
        ensures tells { Follows.Tells self.old self.new result }
        ensures quiet { result.wants ≡ Wants.Nothing → self.new ≡ self.old }
        ensures ended { (x : Stands.Transaction) → Stands.IsOf self.old x → Follows.IsOver self.old x → result.wants ≡ Wants.Nothing }
    {
        let step = self.auth_step(amount, yes, now);
        self.take(step)
    }

    /// A bank answers to a leg.
    ///
    /// The answer counts if the leg is awaited: the moment at which it comes doesn't matter. Else
    /// nothing changes, and nothing is sent.
    pub fn hear_leg(&mut self, leg: Leg, answer: Answer, now: Moment) -> Move
        ensures follows { Follows.HearsLeg self.old self.new result leg answer now }
        ensures tells { Follows.Tells self.old self.new result }
        ensures quiet { result.wants ≡ Wants.Nothing → self.new ≡ self.old }
        ensures ended { (x : Stands.Transaction) → Stands.IsOf self.old x → Follows.IsOver self.old x → result.wants ≡ Wants.Nothing }
    {
        let step = leg_answered(&self.stage, leg, answer, now);
        self.take(step)
    }

    /// A look whether it is due: if it is, what is awaited has not come in time, and a reversal that
    /// is awaited is ordered again.
    ///
    /// Else, and always once there is an outcome, the reply is that it isn't due, nothing changes,
    /// and nothing is sent.
    pub fn late(&mut self, now: Moment) -> Move
        ensures follows { Follows.Lates self.old self.new result now }
        ensures tells { Follows.Tells self.old self.new result }
        ensures quiet { result.wants ≡ Wants.Nothing → self.new ≡ self.old }
        ensures ended { (x : Stands.Transaction) → Stands.IsOf self.old x → Follows.IsOver self.old x → result ≡ record { reply = Reply.NotDue; wants = Wants.Nothing } }
    {
        let step = self.late_step(now);
        self.take(step)
    }

    /// The switch closes: whatever is awaited has ended, and nothing is sent.
    ///
    /// After it there is an outcome, so that no call changes anything any more. A machine doesn't
    /// keep that the switch closed: it replies as for every outcome, and that all calls are refused
    /// after a close is the switch's reply.
    pub fn close(&mut self) -> Move
        ensures follows { Follows.Closes self.old self.new result }
        ensures answer { result ≡ record { reply = Reply.Closed; wants = Wants.Nothing } }
        ensures ended { Follows.IsEnded self.new }
    {
        self.stage = closed(&self.stage);
        Move {
            reply: Reply::Closed,
            wants: Wants::Nothing,
        }
    }

    /// The outcome, if there is one.
    pub fn outcome(&self) -> Option<Outcome>
        ensures { Follows.HasOutcome self.now result }
    {
        self.stage.outcome(self.kind)
    }

    /// When it is due, in seconds, if anything is awaited: the answer of the asked PSP, of a leg or of
    /// the reversal. When the outcome is to be confirmed again isn't the machine's.
    pub fn due(&self) -> Option<u64>
        ensures { Follows.HasDue self.now result }
    {
        self.stage.due(self.due)
    }

    /// What it waits for.
    pub fn phase(&self) -> Phase
        ensures { Follows.HasPhase self.now result }
    {
        self.stage.phase()
    }
}

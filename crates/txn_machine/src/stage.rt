//! How far a transaction has come.
ghost use Rattle.std.specs.Prelude.{◌≡◌};
ghost use Rattle.txn_machine.specs.calls.Steps;

use upi_base::{Code, DUE_SECONDS, Kind, Moment, Outcome, Phase};

/// How far a transaction has come, with the moments and the code that its rules may still read.
#[derive(Clone, Copy)]
pub enum Stage {
    /// It waits for the answer of the asked PSP.
    Asking,
    /// The asked PSP said no.
    Declined,
    /// The asked PSP gave no answer in time.
    Unanswered,
    /// The switch closed before the asked PSP answered.
    ClosedAsking,
    /// The asked PSP said yes: it waits for the answer to its debit.
    Debiting {
        approved: Moment,
    },
    /// Its debit was declined.
    DebitDeclined {
        approved: Moment,
        code: Code,
    },
    /// The switch closed before its debit was answered.
    ClosedDebiting {
        approved: Moment,
    },
    /// Its debit had no answer in time: it waits for the answer to its reversal, last ordered then.
    DebitLate {
        approved: Moment,
        returned: Moment,
    },
    /// The same, and its reversal has ended.
    DebitReturned {
        approved: Moment,
        returned: Moment,
    },
    /// Its debit was posted: it waits for the answer to its credit.
    Crediting {
        approved: Moment,
        debited: Moment,
    },
    /// Its credit was posted.
    Credited {
        approved: Moment,
        debited: Moment,
        credited: Moment,
    },
    /// Its credit had no answer in time.
    CreditLate {
        approved: Moment,
        debited: Moment,
    },
    /// The switch closed before its credit was answered.
    ClosedCrediting {
        approved: Moment,
        debited: Moment,
    },
    /// Its credit was declined: it waits for the answer to its reversal, last ordered then.
    CreditDeclined {
        approved: Moment,
        debited: Moment,
        code: Code,
        returned: Moment,
    },
    /// The same, and its reversal has ended.
    CreditReturned {
        approved: Moment,
        debited: Moment,
        code: Code,
        returned: Moment,
    },
}

/// The code of an answer that didn't come in time.
pub(crate) fn late_code(kind: Kind) -> Code
    ensures { result ≡ Steps.late_code kind }
{
    match kind {
        Kind::Pay => Code::AuthLate,
        Kind::Collect => Code::Expired,
    }
}

// The due moment after a moment.
fn due_after(at: &Moment) -> u64
    ensures { result ≡ Steps.due_after at.now }
{
    at.get() + DUE_SECONDS
}

impl Stage {
    /// The outcome, if there is one.
    pub(crate) fn outcome(&self, kind: Kind) -> Option<Outcome>
        ensures { result ≡ Steps.outcome_at kind self.now }
    {
        match self {
            Stage::Asking => None,
            Stage::Declined => Some(Outcome::Failure(Code::Declined)),
            Stage::Unanswered => Some(Outcome::Failure(late_code(kind))),
            Stage::ClosedAsking => Some(Outcome::Failure(Code::Closed)),
            Stage::Debiting { .. } => None,
            Stage::DebitDeclined { code, .. } => Some(Outcome::Failure(*code)),
            Stage::ClosedDebiting { .. } => Some(Outcome::Failure(Code::Closed)),
            Stage::DebitLate { .. } => None,
            Stage::DebitReturned { .. } => Some(Outcome::Failure(Code::DebitLate)),
            Stage::Crediting { .. } => None,
            Stage::Credited { .. } => Some(Outcome::Success),
            Stage::CreditLate { .. } => Some(Outcome::Deemed),
            Stage::ClosedCrediting { .. } => Some(Outcome::Deemed),
            Stage::CreditDeclined { .. } => None,
            Stage::CreditReturned { code, .. } => Some(Outcome::Failure(*code)),
        }
    }

    /// When it is due, in seconds, where its question is due then.
    pub(crate) fn due(&self, answer: u64) -> Option<u64>
        ensures { result ≡ Steps.due_at answer self.now }
    {
        match self {
            Stage::Asking => Some(answer),
            Stage::Debiting { approved } => Some(due_after(approved)),
            Stage::DebitLate { returned, .. } => Some(due_after(returned)),
            Stage::Crediting { debited, .. } => Some(due_after(debited)),
            Stage::CreditDeclined { returned, .. } => Some(due_after(returned)),
            _ => None,
        }
    }

    /// What it waits for.
    pub(crate) fn phase(&self) -> Phase
        ensures { result ≡ Steps.phase_at self.now }
    {
        match self {
            Stage::Asking => Phase::Asking,
            Stage::Debiting { .. } => Phase::Debiting,
            Stage::Crediting { .. } => Phase::Crediting,
            Stage::DebitLate { .. } => Phase::Reversing,
            Stage::CreditDeclined { .. } => Phase::Reversing,
            _ => Phase::Ended,
        }
    }
}

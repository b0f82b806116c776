//! What happens to the legs of an approved transaction.
ghost use Rattle.std.specs.Prelude.{◌≡◌};
ghost use Rattle.txn_machine.specs.calls.Steps;

use crate::moves::{Step, Wants};
use crate::stage::Stage;
use upi_base::{Answer, Code, Leg, Moment, Reply};

/// OK, and then this.
pub(crate) fn goes(stage: Stage, wants: Wants) -> Step
    ensures { result ≡ Steps.goes stage wants }
{
    Step {
        stage,
        reply: Reply::Ack(None),
        wants,
    }
}

/// It stays at this stage, and nothing is sent.
pub(crate) fn stays(stage: &Stage, reply: Reply) -> Step
    ensures { result ≡ Steps.stays stage.now reply }
{
    Step {
        stage: *stage,
        reply,
        wants: Wants::Nothing,
    }
}

// The debit of a transaction that was approved at a moment is answered.
fn debit_ends(approved: Moment, answer: Answer, now: Moment) -> Step
    ensures { result ≡ Steps.debit_ends approved answer now }
{
    match answer {
        Answer::Posted => goes(
            Stage::Crediting {
                approved,
                debited: now,
            },
            Wants::Credit,
        ),
        Answer::Declined(code) => goes(Stage::DebitDeclined { approved, code }, Wants::Outcome),
    }
}

// The credit of a transaction is answered.
fn credit_ends(approved: Moment, debited: Moment, answer: Answer, now: Moment) -> Step
    ensures { result ≡ Steps.credit_ends approved debited answer now }
{
    match answer {
        Answer::Posted => goes(
            Stage::Credited {
                approved,
                debited,
                credited: now,
            },
            Wants::Outcome,
        ),
        Answer::Declined(code) => goes(
            Stage::CreditDeclined {
                approved,
                debited,
                code,
                returned: now,
            },
            Wants::Reversal,
        ),
    }
}

// An answer to the debit.
fn debit_answered(stage: &Stage, answer: Answer, now: Moment) -> Step
    ensures { result ≡ Steps.debit_answered answer now stage.now }
{
    match stage {
        Stage::Debiting { approved } => debit_ends(*approved, answer, now),
        Stage::DebitLate { .. } => stays(stage, Reply::Ack(Some(Code::DebitLate))),
        Stage::DebitReturned { .. } => stays(stage, Reply::Ack(Some(Code::DebitLate))),
        _ => stays(stage, Reply::Ack(None)),
    }
}

// An answer to the credit.
fn credit_answered(stage: &Stage, answer: Answer, now: Moment) -> Step
    ensures { result ≡ Steps.credit_answered answer now stage.now }
{
    match stage {
        Stage::Crediting { approved, debited } => credit_ends(*approved, *debited, answer, now),
        Stage::CreditLate { .. } => stays(stage, Reply::Ack(Some(Code::CreditLate))),
        _ => stays(stage, Reply::Ack(None)),
    }
}

// The stage of a transaction whose reversal has ended, if it was awaited.
fn returned(stage: &Stage) -> Option<Stage>
    ensures { result ≡ Steps.returned_from stage.now }
{
    match stage {
        Stage::DebitLate { approved, returned } => Some(Stage::DebitReturned {
            approved: *approved,
            returned: *returned,
        }),
        Stage::CreditDeclined {
            approved,
            debited,
            code,
            returned,
        } => Some(Stage::CreditReturned {
            approved: *approved,
            debited: *debited,
            code: *code,
            returned: *returned,
        }),
        _ => None,
    }
}

// An answer to the reversal, of either kind.
fn reversal_answered(stage: &Stage) -> Step
    ensures { result ≡ Steps.reversal_answered stage.now }
{
    match returned(stage) {
        Some(next) => goes(next, Wants::Outcome),
        None => stays(stage, Reply::Ack(None)),
    }
}

/// A bank's answer for a leg.
pub(crate) fn leg_answered(stage: &Stage, leg: Leg, answer: Answer, now: Moment) -> Step
    ensures { result ≡ Steps.leg_answered stage.now answer now leg }
{
    match leg {
        Leg::Debit => debit_answered(stage, answer, now),
        Leg::Credit => credit_answered(stage, answer, now),
        Leg::Reversal => reversal_answered(stage),
    }
}

/// What follows where what is awaited didn't come in time.
pub(crate) fn overdue(stage: &Stage, now: Moment) -> Step
    ensures { result ≡ Steps.overdue now stage.now }
{
    match stage {
        Stage::Asking => acts(Stage::Unanswered, Wants::Outcome),
        Stage::Debiting { approved } => acts(
            Stage::DebitLate {
                approved: *approved,
                returned: now,
            },
            Wants::Reversal,
        ),
        Stage::DebitLate { approved, .. } => acts(
            Stage::DebitLate {
                approved: *approved,
                returned: now,
            },
            Wants::Reversal,
        ),
        Stage::Crediting { approved, debited } => acts(
            Stage::CreditLate {
                approved: *approved,
                debited: *debited,
            },
            Wants::Outcome,
        ),
        Stage::CreditDeclined {
            approved,
            debited,
            code,
            ..
        } => acts(
            Stage::CreditDeclined {
                approved: *approved,
                debited: *debited,
                code: *code,
                returned: now,
            },
            Wants::Reversal,
        ),
        _ => stays(stage, Reply::NotDue),
    }
}

// It was due, and then this.
fn acts(stage: Stage, wants: Wants) -> Step
    ensures { result ≡ Steps.acts stage wants }
{
    Step {
        stage,
        reply: Reply::Acted,
        wants,
    }
}

/// The stage after a close.
pub(crate) fn closed(stage: &Stage) -> Stage
    ensures { result ≡ Steps.closed_from stage.now }
{
    match stage {
        Stage::Asking => Stage::ClosedAsking,
        Stage::Debiting { approved } => Stage::ClosedDebiting {
            approved: *approved,
        },
        Stage::Crediting { approved, debited } => Stage::ClosedCrediting {
            approved: *approved,
            debited: *debited,
        },
        _ => returned(stage).unwrap_or(*stage),
    }
}

//! How codes, legs, outcomes and sides are written.
ghost use Rattle.std.specs.Prelude.{◌≡◌};
ghost use Rattle.upi_base.specs.Words;

use crate::code::{Code, Leg, Outcome};
use crate::settled::Side;

/// How a leg is written.
pub fn leg_word(leg: Leg) -> &'static [u8]
    ensures { result.now ≡ Words.leg_text leg }
{
    match leg {
        Leg::Debit => b"DEBIT",
        Leg::Credit => b"CREDIT",
        Leg::Reversal => b"REVERSAL",
    }
}

/// How a code is written.
pub fn code_word(code: Code) -> &'static [u8]
    ensures { result.now ≡ Words.code_text code }
{
    match code {
        Code::Format => b"FORMAT",
        Code::Closed => b"CLOSED",
        Code::Dup => b"DUP",
        Code::NotYours => b"NOTYOURS",
        Code::Addr => b"ADDR",
        Code::Account => b"ACCOUNT",
        Code::Same => b"SAME",
        Code::Amt => b"AMT",
        Code::Full => b"FULL",
        Code::NoTxn => b"NOTXN",
        Code::Early => b"EARLY",
        Code::Expired => b"EXPIRED",
        Code::AuthLate => b"AUTHLATE",
        Code::Declined => b"DECLINED",
        Code::DebitLate => b"DEBITLATE",
        Code::CreditLate => b"CREDITLATE",
        Code::Funds => b"FUNDS",
        Code::NoDebit => b"NODEBIT",
        Code::NoCredit => b"NOCREDIT",
        Code::Cap => b"CAP",
        Code::Reversed => b"REVERSED",
        Code::Nothing => b"NOTHING",
    }
}

/// How an outcome is written, without the code of a failure.
pub fn outcome_word(outcome: Outcome) -> &'static [u8]
    ensures { result.now ≡ Words.outcome_word outcome }
{
    match outcome {
        Outcome::Success => b"SUCCESS",
        Outcome::Failure(_) => b"FAILURE",
        Outcome::Deemed => b"DEEMED",
    }
}

/// How a side is written.
pub fn side_word(side: Side) -> &'static [u8]
    ensures { result.now ≡ Words.side_text side }
{
    match side {
        Side::Paid => b"PAID",
        Side::Received => b"RECEIVED",
    }
}

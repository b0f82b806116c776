//! The words of which lines are made, appended.
//!
//! At an `Err` a part may be appended: callers write into a buffer of their own.
ghost use Rattle.std.specs.Prelude.{◌≡◌, ◌++◌, ◌∷◌, OnOk, decimal};
ghost use Rattle.upi_base.specs.Money.{paise_text};
ghost use Rattle.upi_base.specs.Shards.{account_text};
ghost use Rattle.upi_text.specs.Pieces.{spaced, policy_text, fault_text, yes_text, answer_text, outcome_text, ack_text, pending_text, reply_text, party_text};

use upi_base::{
    AccountRef, Answer, Code, MsgWhy, NoMemory, Outcome, Paise, Party, Policy, Reply, code_word,
    write_account, write_number,
};

/// Appends bytes.
pub(crate) fn push(text: &[u8], out: &mut Vec<u8>) -> Result<(), NoMemory>
    ensures { OnOk result (out.new.items ≡ out.old.items ++ text.now) }
{
    out.extend_from_slice(text)?;
    Ok(())
}

/// Appends a space and a word.
pub(crate) fn push_word(word: &[u8], out: &mut Vec<u8>) -> Result<(), NoMemory>
    ensures { OnOk result (out.new.items ≡ out.old.items ++ spaced word.now) }
{
    out.push(b' ')?;
    push(word, out)
}

/// Appends a space and a number in decimal digits.
pub(crate) fn push_number(n: u64, out: &mut Vec<u8>) -> Result<(), NoMemory>
    ensures { OnOk result (out.new.items ≡ out.old.items ++ spaced (decimal n)) }
{
    out.push(b' ')?;
    write_number(n, out)
}

/// Appends a space and a sum.
pub(crate) fn push_sum(sum: Paise, out: &mut Vec<u8>) -> Result<(), NoMemory>
    ensures { OnOk result (out.new.items ≡ out.old.items ++ spaced (paise_text sum)) }
{
    out.push(b' ')?;
    sum.write(out)
}

/// Appends a space and an account.
pub(crate) fn push_account(ac: &AccountRef, out: &mut Vec<u8>) -> Result<(), NoMemory>
    ensures { OnOk result (out.new.items ≡ out.old.items ++ spaced (account_text ac.now)) }
{
    out.push(b' ')?;
    write_account(ac, out)
}

/// How a policy is written.
pub(crate) fn policy_word(policy: Policy) -> &'static [u8]
    ensures { result.now ≡ policy_text policy }
{
    match policy {
        Policy::Yes => b"YES",
        Policy::No => b"NO",
        Policy::Ask => b"ASK",
    }
}

/// How the fault of a message is written.
pub fn fault_word(why: MsgWhy) -> &'static [u8]
    ensures { result.now ≡ fault_text why }
{
    match why {
        MsgWhy::Json => b"JSON",
        MsgWhy::Root => b"ROOT",
        MsgWhy::Missing => b"MISSING",
        MsgWhy::Kind => b"KIND",
        MsgWhy::Value => b"VALUE",
        MsgWhy::Count => b"COUNT",
        MsgWhy::Differs => b"DIFFERS",
    }
}

/// How the answer of a PSP that is asked is written.
pub(crate) fn yes_word(yes: bool) -> &'static [u8]
    ensures { result.now ≡ yes_text yes }
{
    if yes { b"YES" } else { b"NO" }
}

/// The name of a party.
pub(crate) fn party_word(party: &Party) -> &[u8]
    ensures { result.now ≡ party_text party.now }
{
    match party {
        Party::Switch => b"SWITCH",
        Party::Psp(name) => name.bytes(),
        Party::Bank(code) => code.bytes(),
    }
}

/// Appends a space and an answer.
pub(crate) fn push_answer(answer: Answer, out: &mut Vec<u8>) -> Result<(), NoMemory>
    ensures { OnOk result (out.new.items ≡ out.old.items ++ spaced (answer_text answer)) }
{
    match answer {
        Answer::Posted => push_word(b"POSTED", out),
        Answer::Declined(code) => {
            push_word(b"DECLINED", out)?;
            push_word(code_word(code), out)
        }
    }
}

/// Appends a space and an outcome.
pub(crate) fn push_outcome(outcome: Outcome, out: &mut Vec<u8>) -> Result<(), NoMemory>
    ensures { OnOk result (out.new.items ≡ out.old.items ++ spaced (outcome_text outcome)) }
{
    match outcome {
        Outcome::Success => push_word(b"SUCCESS", out),
        Outcome::Failure(code) => {
            push_word(b"FAILURE", out)?;
            push_word(code_word(code), out)
        }
        Outcome::Deemed => push_word(b"DEEMED", out),
    }
}

fn push_ack(code: Option<Code>, out: &mut Vec<u8>) -> Result<(), NoMemory>
    ensures { OnOk result (out.new.items ≡ out.old.items ++ spaced (ack_text code)) }
{
    match code {
        None => push_word(b"OK", out),
        Some(code) => {
            push_word(b"NO", out)?;
            push_word(code_word(code), out)
        }
    }
}

fn push_pending(outcome: Option<Outcome>, out: &mut Vec<u8>) -> Result<(), NoMemory>
    ensures { OnOk result (out.new.items ≡ out.old.items ++ spaced (pending_text outcome)) }
{
    match outcome {
        None => push_word(b"PENDING", out),
        Some(outcome) => push_outcome(outcome, out),
    }
}

/// Appends a space and a reply.
pub(crate) fn push_reply(reply: Reply, out: &mut Vec<u8>) -> Result<(), NoMemory>
    ensures { OnOk result (out.new.items ≡ out.old.items ++ spaced (reply_text reply)) }
{
    match reply {
        Reply::Ack(code) => push_ack(code, out),
        Reply::Status(outcome) => {
            push_word(b"STATUS", out)?;
            push_pending(outcome, out)
        }
        Reply::Leg(answer) => push_answer(answer, out),
        Reply::Told => push_word(b"TOLD", out),
        Reply::Lost => push_word(b"LOST", out),
        Reply::Acted => push_word(b"DONE", out),
        Reply::NotDue => push_word(b"NOTDUE", out),
        Reply::Closed => push_word(b"CLOSED", out),
    }
}

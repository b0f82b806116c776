//! Model PSPs: what one answers to a message that it is delivered.
#![tactic(auto)]

ghost use Rattle.std.specs.Prelude.{◌≡◌, option_to_list};
ghost use Rattle.upi_base.specs.Setup.{listing_at};
ghost use Rattle.upi_base.specs.declared.sent.Body.{Body as ABody};
ghost use Rattle.upi_base.specs.declared.sent.Party.{Party as AParty};
ghost use Rattle.upi_model.specs.Places;
ghost use Rattle.upi_model.specs.Sending;
ghost use Rattle.psp_role.specs.Roles;

use upi_base::{Addr, AuthQuestion, Body, Kind, Party, Policy, Sent, TxnId, Ver};
use vpa_directory::Directory;

/// The address that is asked to approve.
fn asked(question: &AuthQuestion) -> &Addr
    ensures { result.now ≡ Places.side question.now.kind question.now.payee question.now.payer }
{
    match question.kind {
        Kind::Pay => &question.payee,
        Kind::Collect => &question.payer,
    }
}

/// RESPAUTH: a PSP's yes or no, in the version of the question.
fn word(psp: &Party, ver: Ver, question: &AuthQuestion, yes: bool) -> Sent
    ensures { result ≡ record { from = psp.now; to = AParty.Switch; body = ABody.RespAuth question.now.txn question.now.amount yes; ver = ver } }
{
    Sent {
        from: psp.copy(),
        to: Party::Switch,
        body: Body::RespAuth {
            txn: question.txn.copy(),
            amount: question.amount,
            yes,
        },
        ver,
    }
}

/// CONFIRMED: that a PSP was told the outcome, in the version of the confirmation.
fn confirmed(psp: &Party, ver: Ver, txn: &TxnId) -> Sent
    ensures { result ≡ record { from = psp.now; to = AParty.Switch; body = ABody.Confirmed txn.now; ver = ver } }
{
    Sent {
        from: psp.copy(),
        to: Party::Switch,
        body: Body::Confirmed { txn: txn.copy() },
        ver,
    }
}

/// What a policy answers to a question.
fn by_policy(psp: &Party, ver: Ver, question: &AuthQuestion, policy: Policy) -> Option<Sent>
    ensures { option_to_list result ≡ Sending.model_word psp.now ver question.now policy }
{
    match policy {
        Policy::Yes => Some(word(psp, ver, question, true)),
        Policy::No => Some(word(psp, ver, question, false)),
        Policy::Ask => None,
    }
}

/// What a PSP answers to a question: by the policy of the asked address, if the directory has it.
fn to_question(
    directory: &Directory,
    psp: &Party,
    ver: Ver,
    question: &AuthQuestion,
) -> Option<Sent>
    ensures { option_to_list result
        ≡ Sending.model_answer_by psp.now ver question.now (listing_at directory.now.lines (Places.side question.now.kind question.now.payee question.now.payer)) }
{
    match directory.policy(asked(question)) {
        Some(policy) => by_policy(psp, ver, question, policy),
        None => None,
    }
}

/// What a model PSP answers to a message to it, in the version of that message: REQAUTH by a yes or a
/// no, as the policy of the asked address says; CONFIRM by CONFIRMED. `None` exactly where it answers
/// nothing: where the policy is ASK or the directory doesn't have the address, and to every other
/// message. It takes no memory.
pub fn answer(directory: &Directory, message: &Sent) -> Option<Sent>
    ensures { option_to_list result ≡ Roles.answer_of directory.now.lines message.now }
{
    match &message.body {
        Body::ReqAuth(question) => {
            to_question(directory, &message.to, message.ver, question.get())
        }
        Body::Confirm {
            txn,
            kind: _kind,
            outcome: _outcome,
        } => Some(confirmed(&message.to, message.ver, txn)),
        Body::RespAuth {
            txn: _txn,
            amount: _amount,
            yes: _yes,
        } => None,
        Body::Order {
            txn: _txn,
            leg: _leg,
            amount: _amount,
            ac: _ac,
            addr: _addr,
            extra: _extra,
        } => None,
        Body::LegAnswer {
            txn: _txn,
            leg: _leg,
            answer: _answer,
        } => None,
        Body::Result {
            txn: _txn,
            kind: _kind,
            outcome: _outcome,
            req_msg: _req_msg,
        } => None,
        Body::Confirmed { txn: _txn } => None,
    }
}

#[cfg(test)]
mod tests;

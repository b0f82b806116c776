//! What model PSPs answer.
ghost use Rattle.std.specs.Prelude.{◌≡◌, ◌++◌, OnOk};
ghost use Rattle.upi_model.specs.Sending;
ghost use Rattle.upi_replay.specs.Sends;

use upi_base::{AuthQuestion, Body, Listing, NoMemory, Party, Policy, Sent, Ver};

/// The word of a model PSP.
fn word(psp: &Party, ver: Ver, question: &AuthQuestion, yes: bool) -> Sent
    ensures { result ≡ Sends.word_message psp.now ver question.now yes }
{
    Sent {
        from: psp.copy(),
        to: Party::Switch,
        body: Body::RespAuth {
            txn: question.txn.copy(),
            amount: question.amount,
            yes,
        },
        ver,
    }
}

fn model_word(
    psp: &Party,
    ver: Ver,
    question: &AuthQuestion,
    policy: Policy,
    out: &mut Vec<Sent>,
) -> Result<(), NoMemory>
    ensures { OnOk result (out.new.items ≡ out.old.items ++ Sending.model_word psp.now ver question.now policy) }
{
    match policy {
        Policy::Yes => {
            out.push(word(psp, ver, question, true))?;
            Ok(())
        }
        Policy::No => {
            out.push(word(psp, ver, question, false))?;
            Ok(())
        }
        Policy::Ask => Ok(()),
    }
}

/// Adds what a model PSP answers to a question, in the question's version, by the policy of the
/// asked address.
pub(crate) fn model_answer(
    psp: &Party,
    ver: Ver,
    question: &AuthQuestion,
    listing: &Option<Listing>,
    out: &mut Vec<Sent>,
) -> Result<(), NoMemory>
    ensures { OnOk result (out.new.items ≡ out.old.items ++ Sending.model_answer_by psp.now ver question.now listing.now) }
{
    match listing {
        None => Ok(()),
        Some(listing) => model_word(psp, ver, question, listing.policy, out),
    }
}

//! The messages that are sent of a transaction.
ghost use Rattle.std.specs.Prelude.{◌≡◌, ◌++◌, [], ◌∷◌, IfOk, OnOk};
ghost use Rattle.std.specs.Option.{option_copied};
ghost use Rattle.upi_base.specs.Setup;
ghost use Rattle.upi_model.specs.Postings.{posted_at};
ghost use Rattle.upi_model.specs.Sending;
ghost use Rattle.txn_machine.specs.Follows;
ghost use Rattle.txn_row.specs.calls.Parts;

use crate::rules::{account, asked_addr, asking_addr};
use pay_machine::Wants;
use std::alloc::Global;
use upi_base::{
    AccountRef, Addr, AuthQuestion, Body, Boxed, Leg, NoMemory, Outcome, Party, PayReq, PspName,
    Sent, SentList, copy_extra, copy_note, provider,
};
use vpa_directory::Directory;

// The PSP of an address.
fn psp_of(addr: &Addr) -> PspName
    ensures { result ≡ Setup.provider addr.now }
{
    let Some(psp) = PspName::read(provider(addr.bytes())) else {
        unreachable!();
    };
    psp
}

/// The question to the asked PSP, as the one message that an opening sends.
pub fn question(alloc: Global, terms: &PayReq) -> Result<SentList, NoMemory>
    ensures { IfOk result (λ s. s ≡ Sending.question terms.now ∷ []) }
{
    let question = AuthQuestion {
        txn: terms.txn.copy(),
        kind: terms.kind,
        payer: terms.payer.copy(),
        payee: terms.payee.copy(),
        amount: terms.amount,
        note: copy_note(&terms.note),
        extra: copy_extra(&terms.extra),
    };
    let mut items = Vec::new(alloc);
    items.push(Sent {
        from: Party::Switch,
        to: Party::Psp(psp_of(asked_addr(terms))),
        body: Body::ReqAuth(Boxed::new(alloc, question)?),
        ver: terms.head.ver,
    })?;
    Ok(SentList::of(items))
}

// The address at which a leg is posted.
fn posted_addr(leg: Leg, terms: &PayReq) -> &Addr
    ensures { result.now ≡ posted_at leg terms.now }
{
    match leg {
        Leg::Debit => &terms.payer,
        Leg::Credit => &terms.payee,
        Leg::Reversal => &terms.payer,
    }
}

// Adds the order for a leg at an account.
fn order_at(
    terms: &PayReq,
    leg: Leg,
    ac: Option<&AccountRef>,
    out: &mut Vec<Sent>,
) -> Result<(), NoMemory>
    ensures { OnOk result (out.new.items ≡ out.old.items ++ Parts.order_for terms.now leg (option_copied ac.entry)) }
{
    match ac {
        None => Ok(()),
        Some(ac) => {
            let alloc = *out.allocator();
            out.push(Sent {
                from: Party::Switch,
                to: Party::Bank(ac.bank.copy()),
                body: Body::Order {
                    txn: terms.txn.copy(),
                    leg,
                    amount: terms.amount,
                    ac: Boxed::new(alloc, ac.copy())?,
                    addr: Boxed::new(alloc, posted_addr(leg, terms).copy())?,
                    extra: copy_extra(&terms.extra),
                },
                ver: terms.head.ver,
            })?;
            Ok(())
        }
    }
}

/// Adds the order for a leg, to the bank at which it is posted. It fails only for want of memory.
pub fn order(dir: &Directory, terms: &PayReq, leg: Leg, out: &mut Vec<Sent>) -> Result<(), NoMemory>
    ensures { OnOk result (out.new.items ≡ out.old.items ++ Sending.order dir.now.lines terms.now leg) }
{
    order_at(terms, leg, account(dir, posted_addr(leg, terms)), out)?;
    Ok(())
}

// The confirmation of an outcome, to the asked PSP.
fn confirmation(terms: &PayReq, outcome: Outcome) -> Sent
    ensures { result ≡ Sending.confirmation terms.now outcome }
{
    Sent {
        from: Party::Switch,
        to: Party::Psp(psp_of(asked_addr(terms))),
        body: Body::Confirm {
            txn: terms.txn.copy(),
            kind: terms.kind,
            outcome,
        },
        ver: terms.head.ver,
    }
}

// The outcome, to the asking PSP.
fn result_message(terms: &PayReq, outcome: Outcome) -> Sent
    ensures { result ≡ Parts.result_message terms.now outcome }
{
    Sent {
        from: Party::Switch,
        to: Party::Psp(psp_of(asking_addr(terms))),
        body: Body::Result {
            txn: terms.txn.copy(),
            kind: terms.kind,
            outcome,
            req_msg: terms.head.msg_id.copy(),
        },
        ver: terms.head.ver,
    }
}

/// The confirmation of an outcome, where there is one.
pub(crate) fn confirm(
    alloc: Global,
    terms: &PayReq,
    outcome: Option<Outcome>,
) -> Result<SentList, NoMemory>
    ensures { IfOk result (λ s. s ≡ Sending.confirm terms.now outcome) }
{
    let mut items = Vec::new(alloc);
    match outcome {
        None => {}
        Some(outcome) => items.push(confirmation(terms, outcome))?,
    }
    Ok(SentList::of(items))
}

// Adds the outcome's messages to both PSPs.
fn outcome_messages(
    terms: &PayReq,
    outcome: Option<Outcome>,
    out: &mut Vec<Sent>,
) -> Result<(), NoMemory>
    ensures { OnOk result (out.new.items ≡ out.old.items ++ Sending.outcome_messages terms.now outcome) }
{
    match outcome {
        None => Ok(()),
        Some(outcome) => {
            out.push(result_message(terms, outcome))?;
            out.push(confirmation(terms, outcome))?;
            Ok(())
        }
    }
}

// Adds the messages that are wanted.
fn wanted(
    dir: &Directory,
    terms: &PayReq,
    outcome: Option<Outcome>,
    wants: Wants,
    out: &mut Vec<Sent>,
) -> Result<(), NoMemory>
    ensures { OnOk result (out.new.items ≡ out.old.items ++ Follows.messages dir.now.lines terms.now outcome wants) }
{
    match wants {
        Wants::Nothing => Ok(()),
        Wants::Debit => order(dir, terms, Leg::Debit, out),
        Wants::Credit => order(dir, terms, Leg::Credit, out),
        Wants::Reversal => order(dir, terms, Leg::Reversal, out),
        Wants::Outcome => outcome_messages(terms, outcome, out),
    }
}

/// The messages that are wanted of a payment with this outcome.
pub(crate) fn messages(
    alloc: Global,
    dir: &Directory,
    terms: &PayReq,
    outcome: Option<Outcome>,
    wants: Wants,
) -> Result<SentList, NoMemory>
    ensures { IfOk result (λ s. s ≡ Follows.messages dir.now.lines terms.now outcome wants) }
{
    let mut items = Vec::new(alloc);
    wanted(dir, terms, outcome, wants, &mut items)?;
    Ok(SentList::of(items))
}

//! The messages that a call sends, by what was found.
ghost use Rattle.std.specs.Prelude.{◌≡◌, ◌++◌, Some, IfOk, OnOk};
ghost use Rattle.std.specs.Option.{option_copied};
ghost use Rattle.upi_base.specs.Setup;
ghost use Rattle.upi_model.specs.Sending;
ghost use Rattle.upi_model.specs.Dues.{passed};
ghost use Rattle.upi_model.specs.History.{past};
ghost use Rattle.upi_model.specs.Replies.{txn_said, txn_of};
ghost use Rattle.upi_replay.specs.Rows.{row_then, row_at as row_at_of, opening_in, decision_in, reversal_in, row_stands, look, due_in, is_due_in, orders_in};
ghost use Rattle.upi_replay.specs.Sends;

use crate::dues::is_due;
use crate::found::Found;
use crate::postings::{bank_answer, order_answer, posted_at};
use crate::psps::model_answer;
use crate::replies::{credit_of, debit_of};
use crate::rows::{Row, cause_from, row_at};
use crate::rules::{asked_addr, asking_addr, side};
use std::alloc::Global;
use upi_base::{
    Account, Addr, AuthQuestion, Body, Boxed, Code, Entry, Leg, Moment, NoMemory, Outcome, Party,
    PayReq, PspName, Sent, SentList, SetupLine, TxnId, Ver, account_at, copy_extra, copy_note,
    listing_at, provider,
};
use upi_model::{Decision, Event, LegEnd, Opening, Said};

/// The PSP of an address.
fn psp_of(addr: &Addr) -> PspName
    ensures { result ≡ Setup.provider addr.now }
{
    match PspName::read(provider(addr.bytes())) {
        Some(psp) => psp,
        None => unreachable!(),
    }
}

/// The question to the asked PSP.
fn question(alloc: Global, r: &PayReq) -> Result<Sent, NoMemory>
    ensures { IfOk result (λ s. s ≡ Sending.question r.now) }
{
    let question = AuthQuestion {
        txn: r.txn.copy(),
        kind: r.kind,
        payer: r.payer.copy(),
        payee: r.payee.copy(),
        amount: r.amount,
        note: copy_note(&r.note),
        extra: copy_extra(&r.extra),
    };
    Ok(Sent {
        from: Party::Switch,
        to: Party::Psp(psp_of(asked_addr(r))),
        body: Body::ReqAuth(Boxed::new(alloc, question)?),
        ver: r.head.ver,
    })
}

fn order_at(
    r: &PayReq,
    leg: Leg,
    account: &Option<Account>,
    out: &mut Vec<Sent>,
) -> Result<(), NoMemory>
    ensures { OnOk result (out.new.items ≡ out.old.items ++ Sending.order_at r.now leg account.now) }
{
    match account {
        None => Ok(()),
        Some(account) => {
            let alloc = *out.allocator();
            out.push(Sent {
                from: Party::Switch,
                to: Party::Bank(account.ac.bank.copy()),
                body: Body::Order {
                    txn: r.txn.copy(),
                    leg,
                    amount: r.amount,
                    ac: Boxed::new(alloc, account.ac.copy())?,
                    addr: Boxed::new(alloc, posted_at(leg, r).copy())?,
                    extra: copy_extra(&r.extra),
                },
                ver: r.head.ver,
            })?;
            Ok(())
        }
    }
}

/// Adds the order for a leg.
fn order(setup: &[SetupLine], r: &PayReq, leg: Leg, out: &mut Vec<Sent>) -> Result<(), NoMemory>
    ensures { OnOk result (out.new.items ≡ out.old.items ++ Sending.order setup.now r.now leg) }
{
    order_at(r, leg, &account_at(setup, posted_at(leg, r)), out)
}

/// The confirmation of an outcome to the asked PSP.
fn confirmation(r: &PayReq, outcome: Outcome) -> Sent
    ensures { result ≡ Sending.confirmation r.now outcome }
{
    Sent {
        from: Party::Switch,
        to: Party::Psp(psp_of(asked_addr(r))),
        body: Body::Confirm {
            txn: r.txn.copy(),
            kind: r.kind,
            outcome,
        },
        ver: r.head.ver,
    }
}

fn confirm(r: &PayReq, outcome: Option<Outcome>, out: &mut Vec<Sent>) -> Result<(), NoMemory>
    ensures { OnOk result (out.new.items ≡ out.old.items ++ Sending.confirm r.now outcome) }
{
    match outcome {
        None => Ok(()),
        Some(outcome) => {
            out.push(confirmation(r, outcome))?;
            Ok(())
        }
    }
}

/// The result of a payment, to the asking PSP.
fn result_message(r: &PayReq, outcome: Outcome) -> Sent
    ensures { result ≡ Sends.result_message r.now outcome }
{
    Sent {
        from: Party::Switch,
        to: Party::Psp(psp_of(asking_addr(r))),
        body: Body::Result {
            txn: r.txn.copy(),
            kind: r.kind,
            outcome,
            req_msg: r.head.msg_id.copy(),
        },
        ver: r.head.ver,
    }
}

/// Adds the outcome's messages to both PSPs.
fn outcome_messages(
    r: &PayReq,
    outcome: Option<Outcome>,
    out: &mut Vec<Sent>,
) -> Result<(), NoMemory>
    ensures { OnOk result (out.new.items ≡ out.old.items ++ Sending.outcome_messages r.now outcome) }
{
    match outcome {
        None => Ok(()),
        Some(outcome) => {
            out.push(result_message(r, outcome))?;
            out.push(confirmation(r, outcome))?;
            Ok(())
        }
    }
}

fn new_decision(before: Option<Decision>, now: Option<Decision>) -> Option<Decision>
    ensures { result ≡ Sending.anew before now }
{
    match before {
        Some(_) => None,
        None => now,
    }
}

fn new_end(before: Option<LegEnd>, now: Option<LegEnd>) -> Option<LegEnd>
    ensures { result ≡ Sending.anew before now }
{
    match before {
        Some(_) => None,
        None => now,
    }
}

fn new_moment(before: Option<Moment>, now: Option<Moment>) -> Option<Moment>
    ensures { result ≡ Sending.anew before now }
{
    match before {
        Some(_) => None,
        None => now,
    }
}

fn decision_of(row: Option<&Row>) -> Option<Decision>
    ensures { result ≡ decision_in (option_copied row.entry) }
{
    match row {
        None => None,
        Some(row) => row.decision,
    }
}

fn reversal_of(row: Option<&Row>) -> Option<Moment>
    ensures { result ≡ reversal_in (option_copied row.entry) }
{
    match row {
        None => None,
        Some(row) => row.reversal,
    }
}

fn on_opening(
    alloc: Global,
    before: Option<&Row>,
    opening: &Opening,
    out: &mut Vec<Sent>,
) -> Result<(), NoMemory>
    ensures { OnOk result (out.new.items ≡ out.old.items ++ Sending.sent_on_opening (Sending.anew (opening_in (option_copied before.entry)) (Some opening.now))) }
{
    match before {
        Some(_row) => Ok(()),
        None => {
            out.push(question(alloc, &opening.terms)?)?;
            Ok(())
        }
    }
}

fn on_decision(
    setup: &[SetupLine],
    r: &PayReq,
    outcome: Option<Outcome>,
    decision: Option<Decision>,
    out: &mut Vec<Sent>,
) -> Result<(), NoMemory>
    ensures { OnOk result (out.new.items ≡ out.old.items ++ Sending.sent_on_decision setup.now r.now outcome decision) }
{
    match &decision {
        None => Ok(()),
        Some(Decision::Yes(_at)) => order(setup, r, Leg::Debit, out),
        Some(Decision::No) => outcome_messages(r, outcome, out),
        Some(Decision::Late) => outcome_messages(r, outcome, out),
        Some(Decision::Close) => Ok(()),
    }
}

fn on_debit(
    setup: &[SetupLine],
    r: &PayReq,
    outcome: Option<Outcome>,
    debit: Option<LegEnd>,
    out: &mut Vec<Sent>,
) -> Result<(), NoMemory>
    ensures { OnOk result (out.new.items ≡ out.old.items ++ Sending.sent_on_debit setup.now r.now outcome debit) }
{
    match &debit {
        None => Ok(()),
        Some(LegEnd::Posted(_at)) => order(setup, r, Leg::Credit, out),
        Some(LegEnd::Declined(_code)) => outcome_messages(r, outcome, out),
        Some(LegEnd::Late) => order(setup, r, Leg::Reversal, out),
        Some(LegEnd::Close) => Ok(()),
    }
}

fn on_credit(
    setup: &[SetupLine],
    r: &PayReq,
    outcome: Option<Outcome>,
    credit: Option<LegEnd>,
    out: &mut Vec<Sent>,
) -> Result<(), NoMemory>
    ensures { OnOk result (out.new.items ≡ out.old.items ++ Sending.sent_on_credit setup.now r.now outcome credit) }
{
    match &credit {
        None => Ok(()),
        Some(LegEnd::Posted(_at)) => outcome_messages(r, outcome, out),
        Some(LegEnd::Declined(_code)) => order(setup, r, Leg::Reversal, out),
        Some(LegEnd::Late) => outcome_messages(r, outcome, out),
        Some(LegEnd::Close) => Ok(()),
    }
}

fn on_reversal(
    r: &PayReq,
    outcome: Option<Outcome>,
    reversal: Option<Moment>,
    out: &mut Vec<Sent>,
) -> Result<(), NoMemory>
    ensures { OnOk result (out.new.items ≡ out.old.items ++ Sending.sent_on_reversal r.now outcome reversal) }
{
    match &reversal {
        None => Ok(()),
        Some(_at) => outcome_messages(r, outcome, out),
    }
}

/// Adds what is sent again by a Late that is due.
fn again(
    setup: &[SetupLine],
    r: &PayReq,
    outcome: Option<Outcome>,
    cause: Option<Code>,
    out: &mut Vec<Sent>,
) -> Result<(), NoMemory>
    ensures { OnOk result (out.new.items ≡ out.old.items ++ Sending.again setup.now r.now outcome cause) }
{
    if outcome.is_some() {
        return confirm(r, outcome, out);
    }
    match cause {
        Some(_) => order(setup, r, Leg::Reversal, out),
        None => Ok(()),
    }
}

fn again_if(
    setup: &[SetupLine],
    r: &PayReq,
    outcome: Option<Outcome>,
    cause: Option<Code>,
    due: bool,
    out: &mut Vec<Sent>,
) -> Result<(), NoMemory>
    ensures { OnOk result (out.new.items ≡ out.old.items ++ Sending.sent_again setup.now r.now outcome cause due) }
{
    if due {
        again(setup, r, outcome, cause, out)
    } else {
        Ok(())
    }
}

/// Adds what is sent at the places that come between two rows of a transaction.
fn at_places(
    alloc: Global,
    setup: &[SetupLine],
    before: Option<&Row>,
    after: &Row,
    out: &mut Vec<Sent>,
) -> Result<(), NoMemory>
    ensures { OnOk result (out.new.items ≡ out.old.items ++ Sending.sent_at_places setup.now (row_stands (option_copied before.entry)) (row_stands (Some after.now)) (Some after.now.opening)) }
{
    let r = &after.opening.terms;
    let outcome = after.outcome();
    let decision = new_decision(decision_of(before), after.decision);
    let debit = new_end(debit_of(before), after.debit);
    let credit = new_end(credit_of(before), after.credit);
    let reversal = new_moment(reversal_of(before), after.reversal);
    on_opening(alloc, before, &after.opening, out)?;
    on_decision(setup, r, outcome, decision, out)?;
    on_debit(setup, r, outcome, debit, out)?;
    on_credit(setup, r, outcome, credit, out)?;
    on_reversal(r, outcome, reversal, out)
}

fn places(
    alloc: Global,
    setup: &[SetupLine],
    before: Option<&Row>,
    after: &Option<Row>,
    out: &mut Vec<Sent>,
) -> Result<(), NoMemory>
    ensures { OnOk result (out.new.items ≡ out.old.items ++ Sending.sent_at_places setup.now (row_stands (option_copied before.entry)) (row_stands after.now) (opening_in after.now)) }
{
    match after {
        None => Ok(()),
        Some(after) => at_places(alloc, setup, before, after, out),
    }
}

/// Adds what a Late sends again.
fn again_due(
    setup: &[SetupLine],
    history: &[Entry],
    now: Moment,
    row: Option<&Row>,
    out: &mut Vec<Sent>,
) -> Result<(), NoMemory>
    ensures { OnOk result (out.new.items ≡ out.old.items ++ Sending.sent_due setup.now (passed now (due_in (past history.now) (option_copied row.entry))) (row_stands (option_copied row.entry)) (opening_in (option_copied row.entry))) }
{
    match row {
        None => Ok(()),
        Some(row) => {
            let due = is_due(history, Some(row), now);
            let cause = cause_from(row.debit, row.credit);
            again_if(setup, &row.opening.terms, row.outcome(), cause, due, out)
        }
    }
}

impl Found {
    /// The row of a transaction behind an event.
    fn row_then(&self, setup: &[SetupLine], event: &Event, now: Moment, txn: &TxnId) -> Option<Row>
        ensures { result ≡ row_then setup.now self.now.rows.items self.now.strays.items self.now.closed event.now now txn.now }
    {
        match row_at(&self.rows, txn) {
            Some(row) => Some(self.advanced(setup, event, now, row)),
            None => match self.opens_row(setup, event, now) {
                None => None,
                Some(row) => {
                    if row.opening.terms.txn == *txn {
                        Some(row)
                    } else {
                        None
                    }
                }
            },
        }
    }

    /// Adds what is sent where an event is a milestone of the transaction.
    fn at_event(
        &self,
        alloc: Global,
        setup: &[SetupLine],
        event: &Event,
        now: Moment,
        txn: &TxnId,
        out: &mut Vec<Sent>,
    ) -> Result<(), NoMemory>
        ensures { let after = row_then setup.now self.now.rows.items self.now.strays.items self.now.closed event.now now txn.now in
            OnOk result (out.new.items ≡ out.old.items ++ Sending.sent_at_places setup.now (look self.now.rows.items txn.now) (row_stands after) (opening_in after)) }
    {
        let after = self.row_then(setup, event, now, txn);
        places(alloc, setup, row_at(&self.rows, txn), &after, out)
    }

    fn on_said(
        &self,
        alloc: Global,
        setup: &[SetupLine],
        event: &Event,
        now: Moment,
        what: &Said,
        out: &mut Vec<Sent>,
    ) -> Result<(), NoMemory>
        ensures { OnOk result (out.new.items ≡ out.old.items ++ Sending.sent_on_said setup.now (look self.now.rows.items (txn_said what.now)) (row_stands (row_then setup.now self.now.rows.items self.now.strays.items self.now.closed event.now now (txn_said what.now))) what.now) }
    {
        match what {
            Said::Pay(r) => self.at_event(alloc, setup, event, now, &r.txn, out),
            Said::Auth(word) => self.at_event(alloc, setup, event, now, &word.txn, out),
            Said::Check(_) => Ok(()),
            Said::Confirmed(_) => Ok(()),
            Said::Foreign => Ok(()),
        }
    }

    fn on_late(
        &self,
        alloc: Global,
        setup: &[SetupLine],
        history: &[Entry],
        event: &Event,
        now: Moment,
        txn: &TxnId,
        out: &mut Vec<Sent>,
    ) -> Result<(), NoMemory>
        ensures { let after = row_then setup.now self.now.rows.items self.now.strays.items self.now.closed event.now now txn.now in
            OnOk result (out.new.items ≡ out.old.items ++ (Sending.sent_at_places setup.now (look self.now.rows.items txn.now) (row_stands after) (opening_in after) ++ Sending.sent_due setup.now (passed now (due_in (past history.now) (row_at_of self.now.rows.items txn.now))) (look self.now.rows.items txn.now) (look self.now.rows.items txn.now).opening)) }
    {
        self.at_event(alloc, setup, event, now, txn, out)?;
        again_due(setup, history, now, row_at(&self.rows, txn), out)
    }

    /// Adds what the switch sends on an event, before the close.
    fn switch_sends(
        &self,
        alloc: Global,
        setup: &[SetupLine],
        history: &[Entry],
        event: &Event,
        now: Moment,
        out: &mut Vec<Sent>,
    ) -> Result<(), NoMemory>
        ensures { OnOk result (out.new.items ≡ out.old.items ++ Sending.sent_between setup.now (is_due_in (past history.now) self.now.rows.items event.now now) (look self.now.rows.items (txn_of event.now)) (row_stands (row_then setup.now self.now.rows.items self.now.strays.items self.now.closed event.now now (txn_of event.now))) event.now) }
    {
        match event {
            Event::Heard { psp: _psp, what } => self.on_said(alloc, setup, event, now, what, out),
            Event::Answered {
                txn,
                leg: _leg,
                answer: _answer,
            } => self.at_event(alloc, setup, event, now, txn, out),
            Event::Late(txn) => self.on_late(alloc, setup, history, event, now, txn, out),
            _ => Ok(()),
        }
    }

    fn receiver_answer(
        &self,
        setup: &[SetupLine],
        to: &Party,
        ver: Ver,
        body: &Body,
        out: &mut Vec<Sent>,
    ) -> Result<(), NoMemory>
        ensures { OnOk result (out.new.items ≡ out.old.items ++ Sending.answer_to setup.now (orders_in setup.now self.now.rows.items) to.now ver body.now) }
    {
        match body {
            Body::ReqAuth(question) => {
                let question = question.get();
                let addr = side(question.kind, &question.payee, &question.payer);
                model_answer(to, ver, question, &listing_at(setup, addr), out)
            }
            Body::Confirm {
                txn,
                kind: _kind,
                outcome: _outcome,
            } => {
                out.push(Sent {
                    from: to.copy(),
                    to: Party::Switch,
                    body: Body::Confirmed { txn: txn.copy() },
                    ver,
                })?;
                Ok(())
            }
            Body::Order {
                txn,
                leg,
                amount: _amount,
                ac: _ac,
                addr: _addr,
                extra: _extra,
            } => {
                let row = row_at(&self.rows, txn);
                let answer = order_answer(setup, &self.rows, row, *leg);
                bank_answer(to, ver, txn, *leg, answer, out)
            }
            _ => Ok(()),
        }
    }

    /// Adds what the receiver of a message answers.
    fn receiver_answers(
        &self,
        setup: &[SetupLine],
        message: Option<&Sent>,
        out: &mut Vec<Sent>,
    ) -> Result<(), NoMemory>
        ensures { OnOk result (out.new.items ≡ out.old.items ++ Sending.answers_to setup.now (orders_in setup.now self.now.rows.items) (option_copied message.entry)) }
    {
        match message {
            None => Ok(()),
            Some(sent) => self.receiver_answer(setup, &sent.to, sent.ver, &sent.body, out),
        }
    }

    /// The messages that an event sends, which delivers this message if it delivers one. It fails
    /// only for want of memory.
    pub(crate) fn sends(
        &self,
        alloc: Global,
        setup: &[SetupLine],
        history: &[Entry],
        message: Option<&Sent>,
        event: &Event,
        now: Moment,
    ) -> Result<SentList, NoMemory>
        ensures { IfOk result (λ s. s ≡ Sending.sends_by setup.now (orders_in setup.now self.now.rows.items) (is_due_in (past history.now) self.now.rows.items event.now now) (option_copied message.entry) self.now.closed (look self.now.rows.items (txn_of event.now)) (row_stands (row_then setup.now self.now.rows.items self.now.strays.items self.now.closed event.now now (txn_of event.now))) event.now) }
    {
        if self.closed {
            return Ok(SentList::new(alloc));
        }
        let mut out = Vec::new(alloc);
        self.switch_sends(alloc, setup, history, event, now, &mut out)?;
        self.receiver_answers(setup, message, &mut out)?;
        Ok(SentList::of(out))
    }
}

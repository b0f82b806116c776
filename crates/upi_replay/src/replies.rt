//! The reply to a call, by what was found.
ghost use Rattle.std.specs.Prelude.{◌≡◌};
ghost use Rattle.std.specs.Option.{option_copied};
ghost use Rattle.std.specs.List.{count_by};
ghost use Rattle.upi_base.specs.Shards;
ghost use Rattle.upi_model.specs.Places.{in_shard};
ghost use Rattle.upi_model.specs.Replies;
ghost use Rattle.upi_replay.specs.Rows.{openings, opening_in, decision_in, debit_in, credit_in, outcome_in, row_stands, look, shard_found, orders_in, is_due_in};
ghost use Rattle.upi_model.specs.History.{past};

use crate::dues::is_due;
use crate::found::Found;
use crate::postings::order_answer;
use crate::rows::{Row, late_code, row_at};
use crate::rules::{accounts_agree, asked, asking, due_answer, minutes, refusal, same_kind};
use upi_base::{Answer, Code, Entry, Extra, Leg, Moment, PayReq, PspName, Reply, SetupLine, Ver};
use upi_model::{AuthWord, Decision, Event, LegEnd, Opening, Said};

fn same_ver(a: Ver, b: Ver) -> bool
    ensures { result ≡ Replies.same_ver a b }
{
    match (a, b) {
        (Ver::One, Ver::One) | (Ver::Two, Ver::Two) => true,
        _ => false,
    }
}

fn same_extra(a: &Option<Extra>, b: &Option<Extra>) -> bool
    ensures { result ≡ Replies.same_extra a.now b.now }
{
    match (a, b) {
        (None, None) => true,
        (Some(a), Some(b)) => a.mode == b.mode && a.purpose == b.purpose,
        _ => false,
    }
}

/// Whether a payment comes again as it was opened.
fn repeats(opened: &PayReq, psp: &PspName, r: &PayReq) -> bool
    ensures { result ≡ Replies.repeats opened.now psp.now r.now }
{
    asking(opened) == psp.bytes()
        && same_kind(opened.kind, r.kind)
        && opened.payer == r.payer
        && opened.payee == r.payee
        && opened.amount == r.amount
        && minutes(opened) == minutes(r)
        && same_ver(opened.head.ver, r.head.ver)
        && same_extra(&opened.extra, &r.extra)
}

fn reply_pay(
    setup: &[SetupLine],
    rows: &[Row],
    psp: &PspName,
    r: &PayReq,
    row: Option<&Row>,
) -> Reply
    ensures { result ≡ Replies.reply_pay_on setup.now (count_by (in_shard (Shards.txn_shard r.now.txn)) (openings rows.now)) (opening_in (option_copied row.entry)) psp.now r.now }
{
    match row {
        Some(row) => {
            if repeats(&row.opening.terms, psp, r) {
                Reply::Ack(None)
            } else {
                Reply::Ack(Some(Code::Dup))
            }
        }
        None => Reply::Ack(refusal(setup, rows, psp.bytes(), r)),
    }
}

fn reply_decided(opening: &Opening, yes: bool, now: Moment, decision: Option<Decision>) -> Reply
    ensures { result ≡ Replies.reply_decided opening.now yes now decision }
{
    let late = Reply::Ack(Some(late_code(opening.terms.kind)));
    match &decision {
        Some(Decision::Yes(_)) => {
            if yes {
                Reply::Ack(None)
            } else {
                Reply::Ack(Some(Code::Dup))
            }
        }
        Some(Decision::No) => {
            if yes {
                Reply::Ack(Some(Code::Dup))
            } else {
                Reply::Ack(None)
            }
        }
        Some(Decision::Late) => late,
        Some(Decision::Close) => late,
        None => {
            if due_answer(opening) <= now.get() {
                late
            } else {
                Reply::Ack(None)
            }
        }
    }
}

fn reply_auth(
    setup: &[SetupLine],
    psp: &PspName,
    word: &AuthWord,
    now: Moment,
    row: Option<&Row>,
) -> Reply
    ensures { result ≡ Replies.reply_auth setup.now psp.now word.now now (decision_in (option_copied row.entry)) (opening_in (option_copied row.entry)) }
{
    match row {
        None => Reply::Ack(Some(Code::NoTxn)),
        Some(row) => {
            let terms = &row.opening.terms;
            if psp.bytes() != asked(terms) {
                Reply::Ack(Some(Code::NotYours))
            } else if !accounts_agree(setup, terms, word) {
                Reply::Ack(Some(Code::Account))
            } else if word.amount != terms.amount {
                Reply::Ack(Some(Code::Amt))
            } else {
                reply_decided(&row.opening, word.yes, now, row.decision)
            }
        }
    }
}

fn reply_check(psp: &PspName, row: Option<&Row>) -> Reply
    ensures { result ≡ Replies.reply_check psp.now (outcome_in (option_copied row.entry)) (opening_in (option_copied row.entry)) }
{
    match row {
        None => Reply::Ack(Some(Code::NoTxn)),
        Some(row) => {
            let terms = &row.opening.terms;
            if psp.bytes() == asking(terms) || psp.bytes() == asked(terms) {
                Reply::Status(row.outcome())
            } else {
                Reply::Ack(Some(Code::NotYours))
            }
        }
    }
}

fn reply_confirmed(psp: &PspName, row: Option<&Row>) -> Reply
    ensures { result ≡ Replies.reply_confirmed psp.now (outcome_in (option_copied row.entry)) (opening_in (option_copied row.entry)) }
{
    match row {
        None => Reply::Ack(Some(Code::NoTxn)),
        Some(row) => {
            if psp.bytes() != asked(&row.opening.terms) {
                Reply::Ack(Some(Code::NotYours))
            } else if row.outcome().is_none() {
                Reply::Ack(Some(Code::Early))
            } else {
                Reply::Ack(None)
            }
        }
    }
}

fn late_answer(code: Code, end: Option<LegEnd>) -> Reply
    ensures { result ≡ Replies.late_answer code end }
{
    match &end {
        Some(LegEnd::Late) => Reply::Ack(Some(code)),
        Some(LegEnd::Posted(_)) => Reply::Ack(None),
        Some(LegEnd::Declined(_)) => Reply::Ack(None),
        Some(LegEnd::Close) => Reply::Ack(None),
        None => Reply::Ack(None),
    }
}

pub(crate) fn debit_of(row: Option<&Row>) -> Option<LegEnd>
    ensures { result ≡ debit_in (option_copied row.entry) }
{
    match row {
        None => None,
        Some(row) => row.debit,
    }
}

pub(crate) fn credit_of(row: Option<&Row>) -> Option<LegEnd>
    ensures { result ≡ credit_in (option_copied row.entry) }
{
    match row {
        None => None,
        Some(row) => row.credit,
    }
}

fn reply_answered(row: Option<&Row>, leg: Leg) -> Reply
    ensures { result ≡ Replies.reply_ended (row_stands (option_copied row.entry)) leg }
{
    match leg {
        Leg::Debit => late_answer(Code::DebitLate, debit_of(row)),
        Leg::Credit => late_answer(Code::CreditLate, credit_of(row)),
        Leg::Reversal => Reply::Ack(None),
    }
}

fn reply_order(answer: Option<Answer>) -> Reply
    ensures { result ≡ Replies.reply_order answer }
{
    match answer {
        None => Reply::Told,
        Some(answer) => Reply::Leg(answer),
    }
}

impl Found {
    /// The reply to what a PSP says.
    fn reply_heard(&self, setup: &[SetupLine], psp: &PspName, what: &Said, now: Moment) -> Reply
        ensures { result ≡ Replies.reply_said setup.now (shard_found self.now.rows.items (Replies.txn_said what.now)) (look self.now.rows.items (Replies.txn_said what.now)) psp.now what.now now }
    {
        match what {
            Said::Pay(r) => reply_pay(setup, &self.rows, psp, r, row_at(&self.rows, &r.txn)),
            Said::Auth(word) => { reply_auth(setup, psp, word, now, row_at(&self.rows, &word.txn)) }
            Said::Check(txn) => reply_check(psp, row_at(&self.rows, txn)),
            Said::Confirmed(txn) => reply_confirmed(psp, row_at(&self.rows, txn)),
            Said::Foreign => Reply::Ack(Some(Code::NotYours)),
        }
    }

    /// The reply to an event, before the close.
    fn reply_on(&self, setup: &[SetupLine], history: &[Entry], event: &Event, now: Moment) -> Reply
        ensures { result ≡ Replies.reply_running setup.now (shard_found self.now.rows.items (Replies.txn_of event.now)) (orders_in setup.now self.now.rows.items) (is_due_in (past history.now) self.now.rows.items event.now now) (look self.now.rows.items (Replies.txn_of event.now)) event.now now }
    {
        match event {
            Event::Heard { psp, what } => self.reply_heard(setup, psp, what, now),
            Event::Unread => Reply::Ack(Some(Code::Format)),
            Event::Ordered { txn, leg } => {
                let row = row_at(&self.rows, txn);
                reply_order(order_answer(setup, &self.rows, row, *leg))
            }
            Event::Answered {
                txn,
                leg,
                answer: _answer,
            } => reply_answered(row_at(&self.rows, txn), *leg),
            Event::Told => Reply::Told,
            Event::Lost => Reply::Lost,
            Event::Late(txn) => {
                if is_due(history, row_at(&self.rows, txn), now) {
                    Reply::Acted
                } else {
                    Reply::NotDue
                }
            }
            Event::Close => Reply::Closed,
        }
    }

    fn reply_closed_said(&self, psp: &PspName, what: &Said) -> Reply
        ensures { result ≡ Replies.reply_shut_said (look self.now.rows.items (Replies.txn_said what.now)) psp.now what.now }
    {
        match what {
            Said::Check(txn) => reply_check(psp, row_at(&self.rows, txn)),
            _ => Reply::Ack(Some(Code::Closed)),
        }
    }

    /// The reply to an event, after the close.
    fn reply_closed(&self, event: &Event) -> Reply
        ensures { result ≡ Replies.reply_shut (look self.now.rows.items (Replies.txn_of event.now)) event.now }
    {
        match event {
            Event::Heard { psp, what } => self.reply_closed_said(psp, what),
            Event::Unread => Reply::Ack(Some(Code::Format)),
            _ => Reply::Ack(Some(Code::Closed)),
        }
    }

    /// The reply to an event at a moment, behind a history.
    pub(crate) fn reply(
        &self,
        setup: &[SetupLine],
        history: &[Entry],
        event: &Event,
        now: Moment,
    ) -> Reply
        ensures { result ≡ Replies.reply_by setup.now (shard_found self.now.rows.items (Replies.txn_of event.now)) (orders_in setup.now self.now.rows.items) (is_due_in (past history.now) self.now.rows.items event.now now) self.now.closed (look self.now.rows.items (Replies.txn_of event.now)) event.now now }
    {
        if self.closed {
            self.reply_closed(event)
        } else {
            self.reply_on(setup, history, event, now)
        }
    }
}

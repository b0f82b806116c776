//! What was found in a history, and going on by an event.
ghost use Rattle.std.specs.Prelude.{◌≡◌, ◌<◌, ◌||◌, [], Some, None, OnOk, false, if◌then◌else◌, map, vec_len, vec_capacity};
ghost use Rattle.upi_base.specs.Lists.{joined};
ghost use Rattle.upi_model.specs.History;
ghost use Rattle.upi_replay.specs.Rows;

use crate::places::{acknowledges, decides, ends, opens, reverses};
use crate::postings::{answer_after, said_on};
use crate::rows::{Row, Stray, cause_from, due_credit, due_debit, row_at};
use std::alloc::Global;
use upi_base::{Answer, Call, Leg, Moment, NoMemory, SetupLine, TxnId};
use upi_model::Event;

/// The transactions in opening order, the legs that arrived before their transactions were opened,
/// and whether the switch was closed.
#[derive(Drop)]
pub(crate) struct Found {
    pub(crate) rows: Vec<Row>,
    pub(crate) strays: Vec<Stray>,
    pub(crate) closed: bool,
}

/// Brings a row behind an event, where the bank says so to the order that it is.
fn advance_row(
    setup: &[SetupLine],
    said: Option<Answer>,
    closed: bool,
    event: &Event,
    now: Moment,
    row: &mut Row,
)
    ensures { row.new ≡ Rows.row_after setup.now said closed event.now now row.old }
{
    let decision = decides(setup, closed, &row.opening, event, now);
    let debit = ends(
        &row.opening.terms.txn,
        Leg::Debit,
        closed,
        due_debit(row.decision),
        event,
        now,
    );
    let credit = ends(
        &row.opening.terms.txn,
        Leg::Credit,
        closed,
        due_credit(row.debit),
        event,
        now,
    );
    let cause = cause_from(row.debit, row.credit);
    let reversal = reverses(&row.opening.terms.txn, closed, cause, event, now);
    let acknowledged = acknowledges(&row.opening, row.outcome(), event, now);
    let debited = answer_after(said, closed, event, row, Leg::Debit);
    let credited = answer_after(said, closed, event, row, Leg::Credit);
    let reversed = answer_after(said, closed, event, row, Leg::Reversal);
    row.decision = row.decision.or(decision);
    row.debit = row.debit.or(debit);
    row.credit = row.credit.or(credit);
    row.reversal = row.reversal.or(reversal);
    row.debited = debited;
    row.credited = credited;
    row.reversed = reversed;
    row.acknowledged = row.acknowledged.or(acknowledged);
}

/// Brings all rows behind an event, each by itself.
fn advance_rows(
    setup: &[SetupLine],
    said: Option<Answer>,
    closed: bool,
    event: &Event,
    now: Moment,
    rows: &mut [Row],
)
    ensures { rows.new ≡ map (Rows.row_after setup.now said closed event.now now) rows.old }
{
    for row in rows.iter_mut() {
        advance_row(setup, said, closed, event, now, row);
    }
}

/// The leg of an order that arrives for a transaction without a row.
fn stray_on(rows: &[Row], event: &Event) -> Option<Stray>
    ensures { result ≡ Rows.stray_on rows.now event.now }
{
    match event {
        Event::Ordered { txn, leg } => match row_at(rows, txn) {
            None => Some(Stray {
                txn: txn.copy(),
                its_leg: *leg,
            }),
            Some(_) => None,
        },
        _ => None,
    }
}

/// Whether the switch is closed after a call.
pub(crate) fn is_closed_by(call: &Call, closed: bool) -> bool
    ensures { result ≡ (History.is_close call.now || closed) }
{
    match call {
        Call::Close => true,
        _ => closed,
    }
}

/// Adds a row, if there is one.
fn push_row(rows: &mut Vec<Row>, row: Option<Row>)
    requires { vec_len rows.old < vec_capacity rows.old }
    ensures { rows.new.items ≡ joined rows.old.items row }
{
    match row {
        None => {}
        Some(row) => rows.push_reserved(row),
    }
}

/// Adds a stray, if there is one.
fn push_stray(strays: &mut Vec<Stray>, stray: Option<Stray>)
    requires { vec_len strays.old < vec_capacity strays.old }
    ensures { strays.new.items ≡ joined strays.old.items stray }
{
    match stray {
        None => {}
        Some(stray) => strays.push_reserved(stray),
    }
}

impl Found {
    ghost use Rattle.upi_replay.specs.Rooms.{IsSameFound, HasRoom};

    /// What an empty history has.
    pub(crate) fn new(alloc: Global) -> Found
        ensures rows { result.rows.items ≡ [] }
        ensures strays { result.strays.items ≡ [] }
        ensures closed { result.closed ≡ false }
    {
        Found {
            rows: Vec::new(alloc),
            strays: Vec::new(alloc),
            closed: false,
        }
    }

    /// The row of the transaction that an event opens.
    pub(crate) fn opens_row(&self, setup: &[SetupLine], event: &Event, now: Moment) -> Option<Row>
        ensures { result ≡ Rows.opens_row setup.now self.now.rows.items self.now.strays.items self.now.closed event.now now }
    {
        match opens(setup, &self.rows, self.closed, event, now) {
            None => None,
            Some(opening) => Some(Row::new(opening, &self.strays)),
        }
    }

    /// A row behind an event.
    pub(crate) fn advanced(&self, setup: &[SetupLine], event: &Event, now: Moment, row: &Row) -> Row
        ensures { result ≡ Rows.row_after setup.now (Rows.said_on setup.now self.now.rows.items event.now) self.now.closed event.now now row.now }
    {
        let said = said_on(setup, &self.rows, event);
        let mut after = row.copy();
        advance_row(setup, said, self.closed, event, now, &mut after);
        after
    }

    /// Makes room for what an event may add, or changes nothing.
    pub(crate) fn reserve(&mut self) -> Result<(), NoMemory>
        ensures same { IsSameFound self.old self.new }
        ensures room { OnOk result (HasRoom self.new) }
    {
        self.rows.reserve(1)?;
        self.strays.reserve(1)?;
        Ok(())
    }

    /// The leg that an event makes a stray.
    fn strays_with(&self, event: &Event) -> Option<Stray>
        ensures { result ≡ (if self.now.closed then None else Rows.stray_on self.now.rows.items event.now) }
    {
        if self.closed {
            None
        } else {
            stray_on(&self.rows, event)
        }
    }

    /// Goes on by an event, which this call brings, at a moment.
    pub(crate) fn advance(&mut self, setup: &[SetupLine], event: &Event, call: &Call, now: Moment)
        requires { HasRoom self.old }
        ensures rows { self.new.rows.items ≡ Rows.rows_after setup.now self.old.rows.items self.old.strays.items self.old.closed event.now now }
        ensures strays { self.new.strays.items ≡ Rows.strays_after self.old.rows.items self.old.strays.items self.old.closed event.now }
        ensures closed { self.new.closed ≡ (History.is_close call.now || self.old.closed) }
    {
        let said = said_on(setup, &self.rows, event);
        let opened = self.opens_row(setup, event, now);
        let stray = self.strays_with(event);
        advance_rows(setup, said, self.closed, event, now, &mut self.rows);
        push_row(&mut self.rows, opened);
        push_stray(&mut self.strays, stray);
        self.closed = is_closed_by(call, self.closed);
    }
}

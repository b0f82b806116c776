//! The row: how its transaction opens, and what each event makes of it.
ghost use Rattle.std.specs.Prelude.{◌≡◌, ◌++◌, [], ℕ, Some, true, false, is_some, IfOk, OnOk};
ghost use Rattle.std.specs.Str.{bytes_eq};
ghost use Rattle.upi_words.specs.Prelude.{Event, Said, Setup};
ghost use Rattle.upi_model.specs.Places;
ghost use Rattle.upi_model.specs.Replies.{reply_pay_on, reply_check};
ghost use Rattle.txn_row.specs.calls.Parts;
ghost use Rattle.txn_row.specs.Rows.{Turns, Opens, row_returns, after, IsRow, outcome_in, closed_outcome_in, due_in, returns_in};

use crate::machine::RowMachine;
use crate::messages::{confirm, messages, order};
use crate::rules::{accounts_agree, asked, asking, repeats, time};
use crate::turn::{Progress, Turn};
use pay_machine::{Move, Wants};
use status_check::{Confirm, status};
use std::alloc::Global;
use std::marker::Model;
use upi_base::{
    Answer, Code, Leg, Moment, NoMemory, Outcome, PayReq, Phase, PspName, Reply, Sent, SentList,
};
use upi_model::{AuthWord, Opening};
use vpa_directory::Directory;

/// A transaction that was opened. Contracts see its opening, and how far it has come.
#[derive(Drop)]
pub struct Row {
    opening: Opening,
    progress: Progress,
}

impl Model for Row {
    ghost use Rattle.txn_row.specs.Rows.{Course};

    ghost Value = { Course };

    ghost view = { λ r. record { opening = r.opening; progress = r.progress } };

    ghost use Rattle.txn_row.specs.Rows.{IsRow};

    ghost invariant = { λ r. IsRow (record { opening = r.opening; progress = r.progress }) };
}

// The confirmations after a move: they begin where the outcome is wanted.
fn confirm_then(before: &Option<Confirm>, wants: Wants, now: Moment) -> Option<Confirm>
    ensures { result ≡ Parts.confirm_then before.now wants now }
{
    match wants {
        Wants::Outcome => Some(Confirm::begin(now)),
        Wants::Nothing => *before,
        Wants::Debit => *before,
        Wants::Credit => *before,
        Wants::Reversal => *before,
    }
}

// Whether it waits for its debit or its reversal.
fn waits(phase: Phase) -> bool
    ensures { result ≡ Parts.waits phase }
{
    match phase {
        Phase::Debiting => true,
        Phase::Reversing => true,
        _ => false,
    }
}

impl Row {
    /// The row of a transaction that opens now with these terms.
    pub fn begin(terms: PayReq, now: Moment) -> Row
        ensures opening { result.opening ≡ record { terms = terms; at = now } }
        ensures begins { Opens result }
    {
        let machine = RowMachine::begin(terms.kind, terms.amount, now, time(&terms));
        Row {
            opening: Opening { terms, at: now },
            progress: Progress {
                machine,
                confirm: None,
            },
        }
    }

    /// The opening.
    pub fn opening(&self) -> &Opening
        ensures { result.now ≡ self.now.opening }
    {
        &self.opening
    }

    /// How far the transaction has come.
    pub fn progress(&self) -> Progress
        ensures { result ≡ self.now.progress }
    {
        self.progress
    }

    /// Sets how far the transaction has come, as an event made it.
    pub fn go(&mut self, progress: Progress)
        requires { IsRow (after self.old progress) }
        ensures { self.new ≡ after self.old progress }
    {
        self.progress = progress;
    }

    // Nothing but this reply.
    fn still(&self, alloc: Global, reply: Reply) -> Turn
        ensures turn { result ≡ Parts.still self.now reply }
        ensures row { IsRow self.now }
    {
        Turn {
            progress: self.progress,
            reply,
            sent: SentList::new(alloc),
        }
    }

    // What a machine's move makes of the transaction.
    fn moved(
        &self,
        alloc: Global,
        dir: &Directory,
        machine: RowMachine,
        its_move: Move,
        now: Moment,
    ) -> Result<Turn, NoMemory>
        ensures turn { IfOk result (λ t. Parts.IsMoved dir.now.lines self.now machine its_move now t) }
    {
        let outcome = machine.outcome();
        let sent = messages(alloc, dir, &self.opening.terms, outcome, its_move.wants)?;
        let confirm = confirm_then(&self.progress.confirm, its_move.wants, now);
        Ok(Turn {
            progress: Progress { machine, confirm },
            reply: its_move.reply,
            sent,
        })
    }

    // The reply to a payment of this name that comes again.
    fn repeat_reply(&self, psp: &PspName, terms: &PayReq) -> Reply
        ensures { result ≡ reply_pay_on [] 0 (Some self.now.opening) psp.now terms.now }
    {
        if repeats(&self.opening.terms, psp, terms) {
            Reply::Ack(None)
        } else {
            Reply::Ack(Some(Code::Dup))
        }
    }

    /// A PSP asks for a payment of this name again.
    pub fn repeated(&self, alloc: Global, psp: &PspName, terms: &PayReq) -> Turn
        requires { bytes_eq terms.now.txn self.now.opening.terms.txn ≡ true }
        ensures { (S : Setup) (now : ℕ) → Turns S self.now (Event.Heard psp.now (Said.Pay terms.now)) now result }
    {
        self.still(alloc, self.repeat_reply(psp, terms))
    }

    // Whether it is the asked PSP.
    fn is_asked(&self, psp: &PspName) -> bool
        ensures { result ≡ bytes_eq psp.now (Places.asked self.now.opening.terms) }
    {
        psp.bytes() == asked(&self.opening.terms)
    }

    // The asked PSP says yes or no.
    fn asked_auth(
        &self,
        alloc: Global,
        dir: &Directory,
        psp: &PspName,
        word: &AuthWord,
        now: Moment,
    ) -> Result<Turn, NoMemory>
        requires named { bytes_eq word.now.txn self.now.opening.terms.txn ≡ true }
        requires its { bytes_eq psp.now (Places.asked self.now.opening.terms) ≡ true }
        ensures { IfOk result (λ t. Turns dir.now.lines self.now (Event.Heard psp.now (Said.Auth word.now)) now t) }
    {
        if accounts_agree(dir, &self.opening.terms, word) {
            let (machine, its_move) = self.progress.machine.heard_auth(word.amount, word.yes, now);
            self.moved(alloc, dir, machine, its_move, now)
        } else {
            Ok(self.still(alloc, Reply::Ack(Some(Code::Account))))
        }
    }

    /// A PSP says yes or no to the transaction.
    pub fn hear_auth(
        &self,
        alloc: Global,
        dir: &Directory,
        psp: &PspName,
        word: &AuthWord,
        now: Moment,
    ) -> Result<Turn, NoMemory>
        requires { bytes_eq word.now.txn self.now.opening.terms.txn ≡ true }
        ensures { IfOk result (λ t. Turns dir.now.lines self.now (Event.Heard psp.now (Said.Auth word.now)) now t) }
    {
        if self.is_asked(psp) {
            self.asked_auth(alloc, dir, psp, word, now)
        } else {
            Ok(self.still(alloc, Reply::Ack(Some(Code::NotYours))))
        }
    }

    // The reply to a PSP that asks for the status.
    fn check_reply(&self, psp: &PspName) -> Reply
        ensures { result ≡ reply_check psp.now (outcome_in self.now) (Some self.now.opening) }
    {
        let bytes = psp.bytes();
        let terms = &self.opening.terms;
        if bytes == asking(terms) || bytes == asked(terms) {
            status(self.outcome())
        } else {
            Reply::Ack(Some(Code::NotYours))
        }
    }

    /// A PSP asks for the status of the transaction.
    pub fn check(&self, alloc: Global, psp: &PspName) -> Turn
        ensures { (S : Setup) (now : ℕ) → Turns S self.now (Event.Heard psp.now (Said.Check self.now.opening.terms.txn)) now result }
    {
        self.still(alloc, self.check_reply(psp))
    }

    // The asked PSP says that it was told the outcome.
    fn asked_confirmed(&self, alloc: Global, psp: &PspName) -> Turn
        requires { bytes_eq psp.now (Places.asked self.now.opening.terms) ≡ true }
        ensures { (S : Setup) (now : ℕ) → Turns S self.now (Event.Heard psp.now (Said.Confirmed self.now.opening.terms.txn)) now result }
    {
        match &self.progress.confirm {
            None => self.still(alloc, Reply::Ack(Some(Code::Early))),
            Some(confirmed) => self.told_turn(alloc, confirmed),
        }
    }

    /// A PSP says that it was told the outcome.
    pub fn confirmed(&self, alloc: Global, psp: &PspName) -> Turn
        ensures { (S : Setup) (now : ℕ) → Turns S self.now (Event.Heard psp.now (Said.Confirmed self.now.opening.terms.txn)) now result }
    {
        if self.is_asked(psp) {
            self.asked_confirmed(alloc, psp)
        } else {
            self.still(alloc, Reply::Ack(Some(Code::NotYours)))
        }
    }

    /// A bank answers to a leg of the transaction.
    pub fn hear_leg(
        &self,
        alloc: Global,
        dir: &Directory,
        leg: Leg,
        answer: Answer,
        now: Moment,
    ) -> Result<Turn, NoMemory>
        ensures { IfOk result (λ t. Turns dir.now.lines self.now (Event.Answered self.now.opening.terms.txn leg answer) now t) }
    {
        let (machine, its_move) = self.progress.machine.heard_leg(leg, answer, now);
        self.moved(alloc, dir, machine, its_move, now)
    }

    // The confirmation goes on: it is sent again, or nothing happens.
    fn confirmed_turn(
        &self,
        alloc: Global,
        confirmed: Confirm,
        again: bool,
    ) -> Result<Turn, NoMemory>
        ensures turn { IfOk result (λ t. t ≡ Parts.confirmed_with self.now confirmed again (outcome_in self.now)) }
        ensures row { IsRow self.now }
    {
        let machine = self.progress.machine;
        if !again {
            return Ok(self.still(alloc, Reply::NotDue));
        }
        let sent = confirm(alloc, &self.opening.terms, self.outcome())?;
        Ok(Turn {
            progress: Progress {
                machine,
                confirm: Some(confirmed),
            },
            reply: Reply::Acted,
            sent,
        })
    }

    // A look whether the confirmation is due.
    fn late_confirm(
        &self,
        alloc: Global,
        confirmed: &Confirm,
        now: Moment,
    ) -> Result<Turn, NoMemory>
        requires { Some confirmed.now ≡ self.now.progress.confirm }
        ensures { IfOk result (λ t. (S : Setup) → Turns S self.now (Event.Late self.now.opening.terms.txn) now t) }
    {
        let mut confirmed = *confirmed;
        let again = confirmed.late(now);
        self.confirmed_turn(alloc, confirmed, again)
    }

    // The asked PSP was told: it isn't told again.
    fn told_turn(&self, alloc: Global, confirmed: &Confirm) -> Turn
        ensures { result ≡ Parts.told_with self.now confirmed.now }
    {
        let mut confirmed = *confirmed;
        confirmed.answered();
        Turn {
            progress: Progress {
                machine: self.progress.machine,
                confirm: Some(confirmed),
            },
            reply: Reply::Ack(None),
            sent: SentList::new(alloc),
        }
    }

    /// A look whether the transaction is due.
    pub fn late(&self, alloc: Global, dir: &Directory, now: Moment) -> Result<Turn, NoMemory>
        ensures { IfOk result (λ t. Turns dir.now.lines self.now (Event.Late self.now.opening.terms.txn) now t) }
    {
        match &self.progress.confirm {
            Some(confirm) => self.late_confirm(alloc, confirm, now),
            None => {
                let (machine, its_move) = self.progress.machine.late(now);
                self.moved(alloc, dir, machine, its_move, now)
            }
        }
    }

    /// The outcome, if there is one.
    pub fn outcome(&self) -> Option<Outcome>
        ensures { result ≡ outcome_in self.now }
    {
        self.progress.machine.outcome()
    }

    /// The outcome after a Close.
    pub fn closed_outcome(&self) -> Option<Outcome>
        ensures { result ≡ closed_outcome_in self.now }
    {
        self.progress.machine.closed().outcome()
    }

    /// When the transaction is due, in seconds, if it is.
    pub fn due(&self) -> Option<u64>
        ensures { result ≡ due_in self.now }
    {
        match &self.progress.confirm {
            Some(confirm) => confirm.due(),
            None => self.progress.machine.due(),
        }
    }

    /// Whether a Close would make its reversal arrive: it is being debited or reversed.
    pub fn returns(&self) -> bool
        ensures { result ≡ returns_in self.now }
    {
        waits(self.progress.machine.phase())
    }

    /// Adds the order for the reversal that a Close would make arrive, if it would. It fails only for
    /// want of memory.
    pub fn at_close(&self, dir: &Directory, out: &mut Vec<Sent>) -> Result<(), NoMemory>
        ensures { OnOk result (out.new.items ≡ out.old.items ++ row_returns dir.now.lines self.now) }
    {
        if self.returns() {
            order(dir, &self.opening.terms, Leg::Reversal, out)?;
        }
        Ok(())
    }
}

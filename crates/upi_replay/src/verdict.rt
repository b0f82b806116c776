//! Whether an entry is right, whether a history is legal, what is right behind one, and what it
//! comes to.
ghost use Rattle.std.specs.Prelude.{◌≡◌, IfOk, MatchOption, is_some};
ghost use Rattle.upi_model.specs.Legal;
ghost use Rattle.upi_model.specs.History;
ghost use Rattle.upi_model.specs.Replies.{reply_to};
ghost use Rattle.upi_model.specs.Sending.{sent_by};
ghost use Rattle.upi_model.specs.Verdicts;
ghost use Rattle.upi_replay.specs.Comes;

use crate::held::Totals;
use crate::same::{same_messages, same_reply};
use crate::switch::Replay;
use std::alloc::Global;
use upi_base::{
    AuditWhy, Call, Entry, MAX_ENTRIES, Moment, NoMemory, Reply, SentList, Setup, Verdict, has_psp,
};

fn is_close(call: &Call) -> bool
    ensures { result ≡ History.is_close call.now }
{
    match call {
        Call::Close => true,
        _ => false,
    }
}

impl Replay {
    fn was_sent(&self, n: u64) -> bool
        ensures { result ≡ is_some (History.message_at self.now.history n) }
    {
        match self.message(n) {
            None => false,
            Some(_) => true,
        }
    }

    fn names_known(&self, call: &Call) -> bool
        ensures { result ≡ Legal.names_known self.now.setup self.now.history call.now }
    {
        match call {
            Call::Hear { psp, input: _input } => has_psp(self.lines(), psp.bytes()),
            Call::Deliver(n) => self.was_sent(*n),
            Call::Lose(n) => self.was_sent(*n),
            Call::Late(_) => true,
            Call::Close => true,
        }
    }

    /// Whether there is room for a call, or it is the first Close.
    pub fn has_room(&self, call: &Call) -> bool
        ensures { result ≡ Legal.has_room self.now.history call.now }
    {
        self.len() < MAX_ENTRIES || (is_close(call) && !self.is_closed())
    }

    /// Whether a call may come: it is of a PSP of the setup or of a message that was sent, and there
    /// is room for it or it is the first Close.
    pub fn may_come(&self, call: &Call) -> bool
        ensures { result ≡ Legal.may_come self.now.setup self.now.history call.now }
    {
        self.names_known(call) && self.has_room(call)
    }

    /// The first reason for which an entry isn't right here, if there is one. It fails only for want
    /// of memory.
    pub fn fault(&self, entry: &Entry) -> Result<Option<AuditWhy>, NoMemory>
        ensures { IfOk result (λ o. MatchOption o (Legal.IsLegalEntry self.now.setup self.now.history entry.now) (λ w. Verdicts.IsFault self.now.setup self.now.history entry.now w)) }
    {
        if !self.may_come(&entry.call) {
            return Ok(Some(AuditWhy::Call));
        }
        let event = self.event(&entry.call);
        if !same_reply(entry.reply, self.reply(&entry.call, &event, entry.at)) {
            return Ok(Some(AuditWhy::Reply));
        }
        let sent = self.sends(&entry.call, &event, entry.at)?;
        if !same_messages(entry.sent.items(), sent.items()) {
            return Ok(Some(AuditWhy::Sent));
        }
        Ok(None)
    }
}

/// A switch to which this happened. It fails only for want of memory.
fn replayed(alloc: Global, setup: &Setup, history: &[Entry]) -> Result<Replay, NoMemory>
    ensures { IfOk result (λ r. r ≡ record { setup = setup.now.lines; history = History.past history.now }) }
{
    let mut switch = Replay::new(alloc, setup.lines.copy(alloc)?);
    'entries: for (i, entry) in history.iter().enumerate() {
        let _passed = i;
        switch.push(entry.copy(alloc)?)?;
    }
    Ok(switch)
}

/// The reply to a call at a moment behind a history, and the messages that it sends. It fails only
/// for want of memory.
pub fn reply_of(
    alloc: Global,
    setup: &Setup,
    history: &[Entry],
    call: &Call,
    now: Moment,
) -> Result<(Reply, SentList), NoMemory>
    ensures { IfOk result (λ r. (r.0 ≡ reply_to setup.now.lines (History.past history.now) call.now now) × (r.1 ≡ sent_by setup.now.lines (History.past history.now) call.now now)) }
{
    let switch = replayed(alloc, setup, history)?;
    let event = switch.event(call);
    let reply = switch.reply(call, &event, now);
    let sent = switch.sends(call, &event, now)?;
    Ok((reply, sent))
}

/// Whether a history is legal: yes, with the count of its entries, or the first entry that isn't
/// right, counted from 1, and the first reason. It goes over the history from entry to entry, and
/// fails only for want of memory.
pub fn replay(alloc: Global, setup: &Setup, history: &[Entry]) -> Result<Verdict, NoMemory>
    ensures { IfOk result (λ v. Verdicts.Judges setup.now.lines history.now v) }
{
    let mut switch = Replay::new(alloc, setup.lines.copy(alloc)?);
    'entries: for (i, entry) in history.iter().enumerate() {
        if let Some(why) = switch.fault(entry)? {
            return Ok(Verdict::No {
                entry: i as u64 + 1,
                why,
            });
        }
        switch.push(entry.copy(alloc)?)?;
    }
    Ok(Verdict::Yes {
        entries: history.len() as u64,
    })
}

/// A verdict says yes exactly where the history is legal.
pub fn verdict_is_exact()
    ensures { Verdicts.VerdictIsExact }
{}

/// What a history comes to: its transactions, what the accounts hold, and the money in flight. It
/// fails only for want of memory.
pub fn totals(alloc: Global, setup: &Setup, history: &[Entry]) -> Result<Totals, NoMemory>
    ensures { IfOk result (λ t. Comes.IsTotals setup.now.lines (History.past history.now) t) }
{
    let switch = replayed(alloc, setup, history)?;
    let rows = switch.rows()?;
    let balances = switch.balances()?;
    Ok(Totals {
        rows,
        balances,
        flight: switch.flight(),
    })
}

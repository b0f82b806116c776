//! A switch, played: a call is planned, and then committed.
ghost use Rattle.std.specs.Prelude.{◌≡◌, ◌∷◌, [], length, IfOk, OnOk, OnErr};
ghost use Rattle.std.specs.Option.{option_copied};
ghost use Rattle.upi_model.specs.History;
ghost use Rattle.upi_model.specs.Replies.{reply_to};
ghost use Rattle.upi_model.specs.Sending.{sent_by};
ghost use Rattle.upi_model.specs.Legal.{entry_of};

use crate::events::{event_with, message_in, numbered};
use crate::found::Found;
use std::alloc::Global;
use std::marker::Model;
use upi_base::{Call, Entry, Moment, NoMemory, Reply, Sent, SentList, SetupLine, SetupLines};
use upi_model::Event;

/// A switch, played. Contracts see its setup and its history, the latest entry first. Any entry may
/// be added, right or not.
#[derive(Drop)]
pub struct Replay {
    pub(crate) alloc: Global,
    pub(crate) lines: SetupLines,
    pub(crate) entries: Vec<Entry>,
    messages: Vec<Sent>,
    pub(crate) found: Found,
}

impl Model for Replay {
    ghost use Rattle.upi_model.specs.Chronicle.{Chronicle};

    ghost Value = { Chronicle };

    ghost use Rattle.upi_model.specs.History.{past};
    ghost use Rattle.upi_replay.specs.Rows.{IsReplay};

    ghost view = { λ r. record { setup = r.lines; history = past r.entries.items } };

    ghost invariant = { λ r. IsReplay r.lines (past r.entries.items) r.messages.items r.found };
}

/// A call that was planned: the entry that it makes, and what it brings.
#[derive(Drop)]
pub struct Step {
    /// The call with its moment and its caller, the reply, and the messages that it sends.
    pub entry: Entry,
    /// What the call brings, read with the message that it delivers.
    pub event: Event,
}

impl Replay {
    ghost use Rattle.upi_replay.specs.Plans.{IsPlanned};

    /// A switch over a setup to which nothing has happened.
    pub fn new(alloc: Global, lines: SetupLines) -> Replay
        ensures { result ≡ record { setup = lines; history = [] } }
    {
        Replay {
            alloc,
            lines,
            entries: Vec::new(alloc),
            messages: Vec::new(alloc),
            found: Found::new(alloc),
        }
    }

    /// The lines of the setup.
    pub fn lines(&self) -> &[SetupLine]
        ensures { result.now ≡ self.now.setup }
    {
        self.lines.items()
    }

    /// The entries, the latest last.
    pub fn entries(&self) -> &[Entry]
        ensures { History.past result.now ≡ self.now.history }
    {
        &self.entries
    }

    /// How many entries there are.
    pub fn len(&self) -> u64
        ensures { result ≡ length self.now.history }
    {
        self.entries.len() as u64
    }

    /// How many messages were sent.
    pub fn sent_count(&self) -> u64
        ensures { result ≡ History.sent_count self.now.history }
    {
        self.messages.as_slice().len() as u64
    }

    /// Whether there is a Close.
    pub fn is_closed(&self) -> bool
        ensures { result ≡ History.is_closed self.now.history }
    {
        self.found.closed
    }

    /// The message of a number, counted from 1 in the order in which they were sent, if it was sent.
    pub fn message(&self, n: u64) -> Option<&Sent>
        ensures { option_copied result ≡ History.message_at self.now.history n }
    {
        numbered(&self.messages, n)
    }

    /// What a call brings.
    pub(crate) fn event(&self, call: &Call) -> Event
        ensures { result ≡ History.event_of self.now.history call.now }
    {
        event_with(message_in(&self.messages, call), call)
    }

    /// The reply to a call that brings this event.
    pub(crate) fn reply(&self, call: &Call, event: &Event, now: Moment) -> Reply
        requires { event.now ≡ History.event_of self.now.history call.now }
        ensures { result ≡ reply_to self.now.setup self.now.history call.now now }
    {
        self.found
            .reply(self.lines.items(), &self.entries, event, now)
    }

    /// The messages of a call that brings this event. It fails only for want of memory.
    pub(crate) fn sends(
        &self,
        call: &Call,
        event: &Event,
        now: Moment,
    ) -> Result<SentList, NoMemory>
        requires { event.now ≡ History.event_of self.now.history call.now }
        ensures { IfOk result (λ s. s ≡ sent_by self.now.setup self.now.history call.now now) }
    {
        let setup = self.lines.items();
        let message = message_in(&self.messages, call);
        let sent = self
            .found
            .sends(self.alloc, setup, &self.entries, message, event, now)?;
        Ok(sent)
    }

    /// The entry that a caller's call at a moment makes, with the right reply and messages, whether
    /// it may come or not. It fails only for want of memory.
    pub fn plan(&self, caller: u64, call: Call, now: Moment) -> Result<Step, NoMemory>
        ensures entry { IfOk result (λ s. s.entry ≡ entry_of self.now.setup self.now.history caller call now) }
        ensures planned { IfOk result (λ s. IsPlanned self.now s) }
    {
        let event = self.event(&call);
        let reply = self.reply(&call, &event, now);
        let sent = self.sends(&call, &event, now)?;
        Ok(Step {
            entry: Entry {
                call,
                at: now,
                caller,
                reply,
                sent,
            },
            event,
        })
    }

    /// Adds an entry whose call brings this event. Where there is no memory, nothing changes.
    fn add(&mut self, entry: Entry, event: &Event) -> Result<(), NoMemory>
        requires { event.now ≡ History.event_of self.old.history entry.call }
        ensures ok { OnOk result (self.new ≡ record self.old { history = entry ∷ self.old.history }) }
        ensures err { OnErr result (self.new ≡ self.old) }
    {
        let mut copies = entry.sent.copy(self.alloc)?.into_items();
        self.entries.reserve(1)?;
        self.found.reserve()?;
        self.messages.append(&mut copies)?;
        self.found
            .advance(self.lines.items(), event, &entry.call, entry.at);
        self.entries.push_reserved(entry);
        Ok(())
    }

    /// Adds the entry of a call that was planned here. Where there is no memory, nothing changes.
    pub fn commit(&mut self, step: Step) -> Result<(), NoMemory>
        requires { IsPlanned self.old step }
        ensures ok { OnOk result (self.new ≡ record self.old { history = step.entry ∷ self.old.history }) }
        ensures err { OnErr result (self.new ≡ self.old) }
    {
        self.add(step.entry, &step.event)
    }

    /// Adds an entry, right or not. Where there is no memory, nothing changes.
    pub fn push(&mut self, entry: Entry) -> Result<(), NoMemory>
        ensures ok { OnOk result (self.new ≡ record self.old { history = entry ∷ self.old.history }) }
        ensures err { OnErr result (self.new ≡ self.old) }
    {
        let event = self.event(&entry.call);
        self.add(entry, &event)
    }
}

//! Calls, and the entries of a history.
ghost use Rattle.std.specs.Prelude.{◌≡◌, IfOk};

use crate::code::Reply;
use crate::fault::NoMemory;
use crate::message::Input;
use crate::moment::Moment;
use crate::sent::{Sent, SentList};
use crate::{PspName, TxnId};
use std::alloc::Global;

/// A call on the switch. Sent messages are numbered from 1 in the order of the history.
#[derive(Drop, PartialEq)]
pub enum Call {
    /// This PSP sends something.
    Hear { psp: PspName, input: Input },
    /// The message of a number is handed to its receiver.
    Deliver(u64),
    /// The message of a number is lost.
    Lose(u64),
    /// A transaction may be due.
    Late(TxnId),
    /// The switch closes.
    Close,
}

impl Call {
    /// The same call. It fails only for want of memory.
    pub fn copy(&self, alloc: Global) -> Result<Call, NoMemory>
        ensures { IfOk result (λ x. x ≡ self.now) }
    {
        match self {
            Call::Hear { psp, input } => Ok(Call::Hear {
                psp: psp.copy(),
                input: input.copy(alloc)?,
            }),
            Call::Deliver(number) => Ok(Call::Deliver(*number)),
            Call::Lose(number) => Ok(Call::Lose(*number)),
            Call::Late(txn) => Ok(Call::Late(txn.copy())),
            Call::Close => Ok(Call::Close),
        }
    }
}

/// A call on the shard of one transaction: it holds the message that it is about, not its number.
/// Close isn't among them, for it is for every shard at once.
#[derive(Drop, PartialEq)]
pub enum ShardCall {
    /// This PSP sends something.
    Hear { psp: PspName, input: Input },
    /// This message is handed to its receiver.
    Deliver(Sent),
    /// This message is lost.
    Lose(Sent),
    /// The transaction may be due.
    Late(TxnId),
}

/// An entry of the history: a call, its moment, its caller's number, the reply and what was sent.
#[derive(Drop)]
pub struct Entry {
    /// What was asked of the switch.
    pub call: Call,
    /// When, in seconds since 1970-01-01T00:00:00Z. Entries may come out of their order in time.
    pub at: Moment,
    /// Who made the call: a number, 0 where a script did.
    pub caller: u64,
    /// What the switch said.
    pub reply: Reply,
    /// The messages that the call sent, in their order.
    pub sent: SentList,
}

impl Entry {
    /// The same entry. It fails only for want of memory.
    pub fn copy(&self, alloc: Global) -> Result<Entry, NoMemory>
        ensures { IfOk result (λ x. x ≡ self.now) }
    {
        Ok(Entry {
            call: self.call.copy(alloc)?,
            at: self.at,
            caller: self.caller,
            reply: self.reply,
            sent: self.sent.copy(alloc)?,
        })
    }
}

/// The answer to an accepted call: the reply, and the place of its entry, counted from 1.
#[derive(Clone, Copy, Debug, PartialEq, Eq)]
pub struct Done {
    /// What the switch said.
    pub reply: Reply,
    /// Where the entry stands in the history, the first being 1.
    pub place: u64,
}

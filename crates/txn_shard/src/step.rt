//! What is planned of a call.
use std::alloc::Global;
use std::marker::Model;
use std::mem;
use txn_row::{Progress, Row};
use upi_base::{Reply, Sent, SentList, TxnId};

/// A change of a shard's rows.
#[derive(Drop)]
pub enum Change {
    /// None.
    Still,
    /// A transaction opens.
    Opens(Row),
    /// A transaction comes so far.
    Goes(TxnId, Progress),
}

/// A call that was planned: the reply, the messages, and the change of the rows.
#[derive(Drop)]
pub struct Step {
    pub(crate) alloc: Global,
    pub(crate) reply: Reply,
    pub(crate) sent: SentList,
    pub(crate) change: Change,
}

impl Model for Step {
    ghost use Rattle.txn_shard.specs.Shard.{Plan};

    ghost Value = { Plan };

    ghost view = { λ s. record { reply = s.reply; sent = s.sent; change = s.change } };
}

impl Step {
    ghost use Rattle.std.specs.Prelude.{◌≡◌, []};
    ghost use Rattle.std.specs.Option.{option_copied};
    ghost use Rattle.txn_shard.specs.Shard.{opened_by};

    /// The reply to the call.
    pub fn reply(&self) -> &Reply
        ensures { result.now ≡ self.now.reply }
    {
        &self.reply
    }

    /// The messages that the call sends.
    pub fn sent(&self) -> &[Sent]
        ensures { result.now ≡ self.now.sent }
    {
        self.sent.items()
    }

    /// The name of the transaction that the call opens, if it opens one. Its row goes behind the
    /// others.
    pub fn opens(&self) -> Option<&TxnId>
        ensures { option_copied result ≡ opened_by self.now.change }
    {
        match &self.change {
            Change::Still => None,
            Change::Opens(row) => Some(&row.opening().terms.txn),
            Change::Goes(_txn, _progress) => None,
        }
    }

    /// Takes the messages out, for the entry of the call. The step stays planned.
    pub fn take_sent(&mut self) -> SentList
        ensures sent { result ≡ self.old.sent }
        ensures rest { self.new ≡ record self.old { sent = [] } }
    {
        mem::replace(&mut self.sent, SentList::new(self.alloc))
    }
}

//! What is planned of a call.
use std::marker::Model;
use txn_shard::Step as OneStep;
use upi_base::{Reply, Sent, SentList, TxnId};

/// A call that was planned: at which shard, and what there.
#[derive(Drop)]
pub struct Step {
    pub(crate) place: usize,
    pub(crate) step: OneStep,
}

impl Model for Step {
    ghost use Rattle.txn_shards.specs.Txns.{Placed};

    ghost Value = { Placed };

    ghost view = { λ s. record { place = s.place; plan = s.step } };
}

impl Step {
    ghost use Rattle.std.specs.Prelude.{◌≡◌, []};
    ghost use Rattle.std.specs.Option.{option_copied};
    ghost use Rattle.txn_shard.specs.Shard.{opened_by};

    /// The number of the shard, below 16.
    pub fn place(&self) -> usize
        ensures { result ≡ self.now.place }
    {
        self.place
    }

    /// The reply to the call.
    pub fn reply(&self) -> &Reply
        ensures { result.now ≡ self.now.plan.reply }
    {
        self.step.reply()
    }

    /// The messages that the call sends.
    pub fn sent(&self) -> &[Sent]
        ensures { result.now ≡ self.now.plan.sent }
    {
        self.step.sent()
    }

    /// The name of the transaction that the call opens, if it opens one.
    pub fn opens(&self) -> Option<&TxnId>
        ensures { option_copied result ≡ opened_by self.now.plan.change }
    {
        self.step.opens()
    }

    /// Takes the messages out, for the entry of the call. The step stays planned.
    pub fn take_sent(&mut self) -> SentList
        ensures sent { result ≡ self.old.plan.sent }
        ensures rest { self.new ≡ record self.old { plan = record self.old.plan { sent = [] } } }
    {
        self.step.take_sent()
    }
}

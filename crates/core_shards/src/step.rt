//! What is planned of a call.
ghost use Rattle.std.specs.Prelude.{◌≡◌};
ghost use Rattle.core_shards.specs.Steps.{reply_of, sent_of, without_sent};

use account_shard::Step as LegStep;
use txn_shards::Step as TxnStep;
use upi_base::{Reply, SentList};

/// A call that was planned: by a shard of transactions, or, where it delivers an order, by a shard of
/// accounts.
#[derive(Drop)]
pub enum Step {
    /// By a shard of transactions.
    Txn(TxnStep),
    /// By a shard of accounts.
    Leg(LegStep),
}

impl Step {
    /// The reply to the call.
    pub fn reply(&self) -> &Reply
        ensures { result.now ≡ reply_of self.now }
    {
        match self {
            Step::Txn(step) => step.reply(),
            Step::Leg(step) => step.reply(),
        }
    }

    /// Takes the messages out, for the entry of the call. The step stays planned.
    pub fn take_sent(&mut self) -> SentList
        ensures sent { result ≡ sent_of self.old }
        ensures rest { self.new ≡ without_sent self.old }
    {
        match self {
            Step::Txn(step) => step.take_sent(),
            Step::Leg(step) => step.take_sent(),
        }
    }
}

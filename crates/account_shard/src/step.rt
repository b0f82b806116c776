//! What is planned of an order.
use std::alloc::Global;
use std::marker::Model;
use std::mem;
use upi_base::{AccountRef, Answer, Leg, Paise, Reply, Sent, SentList};
use upi_model::Order;

/// An order that was planned: how the bank answers it, what that moves, and the reply and the
/// messages of its delivery.
#[derive(Drop)]
pub struct Step {
    pub(crate) alloc: Global,
    pub(crate) order: Order,
    pub(crate) answer: Answer,
    pub(crate) moved: Option<(Leg, Paise)>,
    pub(crate) reply: Reply,
    pub(crate) sent: SentList,
}

impl Model for Step {
    ghost use Rattle.account_shard.specs.Shard.{Plan};

    ghost Value = { Plan };

    ghost view = { λ s. record { order = s.order; answer = s.answer; moved = s.moved; reply = s.reply; sent = s.sent } };
}

impl Step {
    ghost use Rattle.std.specs.Prelude.{◌≡◌, []};

    /// The reply to the delivery of the order.
    pub fn reply(&self) -> &Reply
        ensures { result.now ≡ self.now.reply }
    {
        &self.reply
    }

    /// The account of the order, at which the step posts.
    pub fn account(&self) -> &AccountRef
        ensures { result.now ≡ self.now.order.ac }
    {
        &self.order.ac
    }

    /// The messages that the delivery of the order sends: the bank's answer.
    pub fn sent(&self) -> &[Sent]
        ensures { result.now ≡ self.now.sent }
    {
        self.sent.items()
    }

    /// The leg and the amount that move where the step is committed; `None` exactly where no
    /// balance changes.
    pub fn moved(&self) -> Option<(Leg, Paise)>
        ensures { result ≡ self.now.moved }
    {
        self.moved
    }

    /// Takes the messages out, for the entry of the delivery. The step stays planned.
    pub fn take_sent(&mut self) -> SentList
        ensures sent { result ≡ self.old.sent }
        ensures rest { self.new ≡ record self.old { sent = [] } }
    {
        mem::replace(&mut self.sent, SentList::new(self.alloc))
    }
}

//! Orders as messages carry them, and the messages that answer them.
ghost use Rattle.std.specs.Prelude.{◌≡◌, Some, IfOk};
ghost use Rattle.upi_model.specs.Accounts;
ghost use Rattle.upi_model.specs.Sending;

use std::alloc::Global;
use upi_base::{Answer, Body, NoMemory, Party, Sent, SentList};
use upi_model::Order;

/// The order that a message is, if it is one.
pub(crate) fn order_in(message: &Sent) -> Option<Order>
    ensures { result ≡ Accounts.order_of message.now.body }
{
    match &message.body {
        Body::Order {
            txn,
            leg,
            amount,
            ac,
            addr: _addr,
            extra: _extra,
        } => Some(Order {
            txn: txn.copy(),
            its_leg: *leg,
            amount: *amount,
            ac: ac.get().copy(),
        }),
        _ => None,
    }
}

/// The bank's answer to an order, as the one message that its delivery sends.
pub(crate) fn answer_message(
    alloc: Global,
    message: &Sent,
    order: &Order,
    answer: Answer,
) -> Result<SentList, NoMemory>
    ensures { IfOk result (λ s. s ≡ Sending.bank_answer message.now.to message.now.ver order.now.txn order.now.its_leg (Some answer)) }
{
    let mut items = Vec::new(alloc);
    items.push(Sent {
        from: message.to.copy(),
        to: Party::Switch,
        body: Body::LegAnswer {
            txn: order.txn.copy(),
            leg: order.its_leg,
            answer,
        },
        ver: message.ver,
    })?;
    Ok(SentList::of(items))
}

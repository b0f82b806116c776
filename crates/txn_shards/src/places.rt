//! The shard of a call.
ghost use Rattle.std.specs.Prelude.{◌≡◌, ◌<◌};
ghost use Rattle.upi_words.specs.Prelude.{Owner};
ghost use Rattle.upi_model.specs.Owners.{body_txn, input_owner, message_owner};

use upi_base::{Body, Input, Message, TxnId, txn_shard};

/// The shard of a message of a PSP; 0 where it names no transaction.
fn place_of_message(message: &Message) -> usize
    ensures bound { result < 16 }
    ensures value { message_owner message.now ≡ Owner.Txns result }
{
    match message {
        Message::Pay(request) => txn_shard(&request.get().txn) as usize,
        Message::AuthAnswer(answer) => txn_shard(&answer.get().txn) as usize,
        Message::Check(check) => txn_shard(&check.txn) as usize,
        Message::Confirmed(answer) => txn_shard(&answer.get().txn) as usize,
        Message::Foreign {
            api: _api,
            head: _head,
        } => 0,
    }
}

/// The shard of what a PSP sends; 0 where it can't be read.
pub(crate) fn place_of_input(input: &Input) -> usize
    ensures bound { result < 16 }
    ensures value { input_owner input.now ≡ Owner.Txns result }
{
    match input {
        Input::Good(message) => place_of_message(message),
        Input::Bad(_fault) => 0,
    }
}

/// The transaction that a sent message is about.
pub(crate) fn txn_of(body: &Body) -> &TxnId
    ensures { result.now ≡ body_txn body.now }
{
    match body {
        Body::ReqAuth(question) => &question.get().txn,
        Body::RespAuth {
            txn,
            amount: _amount,
            yes: _yes,
        } => txn,
        Body::Order {
            txn,
            leg: _leg,
            amount: _amount,
            ac: _ac,
            addr: _addr,
            extra: _extra,
        } => txn,
        Body::LegAnswer {
            txn,
            leg: _leg,
            answer: _answer,
        } => txn,
        Body::Result {
            txn,
            kind: _kind,
            outcome: _outcome,
            req_msg: _req_msg,
        } => txn,
        Body::Confirm {
            txn,
            kind: _kind,
            outcome: _outcome,
        } => txn,
        Body::Confirmed { txn } => txn,
    }
}

//! A call, read with the message that it delivers.
ghost use Rattle.std.specs.Prelude.{◌≡◌, slice_get};
ghost use Rattle.std.specs.Option.{option_copied};
ghost use Rattle.upi_model.specs.History;
ghost use Rattle.upi_model.specs.Own;
ghost use Rattle.upi_replay.specs.Rows;

use upi_base::{Body, Call, Input, Message, Party, PspName, Sent};
use upi_model::{AuthWord, Event, Said};

/// The message of a number, counted from 1.
pub(crate) fn numbered(messages: &[Sent], n: u64) -> Option<&Sent>
    ensures { option_copied result ≡ History.numbered messages.now n }
{
    if n == 0 {
        return None;
    }
    match messages.get((n - 1) as usize) {
        None => None,
        Some(sent) => Some(sent),
    }
}

/// The message that a call delivers.
pub(crate) fn message_in<'a>(messages: &'a [Sent], call: &Call) -> Option<&'a Sent>
    ensures { option_copied result ≡ Rows.message_in messages.now call.now }
{
    match call {
        Call::Deliver(n) => numbered(messages, *n),
        _ => None,
    }
}

/// What a message says of a payment.
fn said_in(message: &Message) -> Said
    ensures { result ≡ History.said_in message.now }
{
    match message {
        Message::Pay(r) => Said::Pay(r.get().copy()),
        Message::AuthAnswer(a) => {
            let answer = a.get().copy();
            Said::Auth(AuthWord {
                txn: answer.txn,
                yes: answer.yes,
                amount: answer.amount,
                payer_ac: answer.payer_ac,
                payee_ac: answer.payee_ac,
            })
        }
        Message::Check(check) => Said::Check(check.txn.copy()),
        Message::Confirmed(c) => Said::Confirmed(c.get().txn.copy()),
        Message::Foreign {
            api: _api,
            head: _head,
        } => Said::Foreign,
    }
}

fn heard_from(psp: &PspName, input: &Input) -> Event
    ensures { result ≡ History.heard_from psp.now input.now }
{
    match input {
        Input::Good(message) => Event::Heard {
            psp: psp.copy(),
            what: said_in(message),
        },
        Input::Bad(_) => Event::Unread,
    }
}

fn said_by(from: &Party, what: Said) -> Event
    ensures { result ≡ History.said_by from.now what }
{
    match from {
        Party::Psp(psp) => Event::Heard {
            psp: psp.copy(),
            what,
        },
        Party::Bank(_) => Event::Told,
        Party::Switch => Event::Told,
    }
}

fn delivered(from: &Party, body: &Body) -> Event
    ensures { result ≡ History.delivered from.now body.now }
{
    match body {
        Body::RespAuth { txn, amount, yes } => said_by(
            from,
            Said::Auth(AuthWord {
                txn: txn.copy(),
                yes: *yes,
                amount: *amount,
                payer_ac: None,
                payee_ac: None,
            }),
        ),
        Body::Confirmed { txn } => said_by(from, Said::Confirmed(txn.copy())),
        Body::Order {
            txn,
            leg,
            amount: _amount,
            ac: _ac,
            addr: _addr,
            extra: _extra,
        } => Event::Ordered {
            txn: txn.copy(),
            leg: *leg,
        },
        Body::LegAnswer { txn, leg, answer } => Event::Answered {
            txn: txn.copy(),
            leg: *leg,
            answer: *answer,
        },
        Body::ReqAuth(_) => Event::Told,
        Body::Result {
            txn: _txn,
            kind: _kind,
            outcome: _outcome,
            req_msg: _req_msg,
        } => Event::Told,
        Body::Confirm {
            txn: _txn,
            kind: _kind,
            outcome: _outcome,
        } => Event::Told,
    }
}

/// What a delivery brings; that of a message that was never sent counts as told.
fn read_message(message: Option<&Sent>) -> Event
    ensures { result ≡ History.read_message (option_copied message.entry) }
{
    match message {
        None => Event::Told,
        Some(sent) => delivered(&sent.from, &sent.body),
    }
}

/// What a call brings, read with the message that it delivers.
pub(crate) fn event_with(message: Option<&Sent>, call: &Call) -> Event
    ensures { result ≡ Own.event_with (option_copied message.entry) call.now }
{
    match call {
        Call::Hear { psp, input } => heard_from(psp, input),
        Call::Deliver(_) => read_message(message),
        Call::Lose(_) => Event::Lost,
        Call::Late(txn) => Event::Late(txn.copy()),
        Call::Close => Event::Close,
    }
}

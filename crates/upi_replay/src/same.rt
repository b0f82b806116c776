//! Whether two replies, or two lists of messages, are one.
ghost use Rattle.std.specs.Prelude.{◌≡◌, IsTrue, ◌↔◌};

use upi_base::{
    AccountRef, Addr, Answer, AuthQuestion, Body, Extra, Kind, Leg, MsgId, Outcome, Paise, Party,
    Reply, Sent, TxnId,
};

/// Whether two replies are one.
pub fn same_reply(a: Reply, b: Reply) -> bool
    ensures { IsTrue result ↔ (a ≡ b) }
{
    a == b
}

fn same_party(a: &Party, b: &Party) -> bool
    ensures { IsTrue result ↔ (a.now ≡ b.now) }
{
    a == b
}

fn same_question(a: &AuthQuestion, b: &AuthQuestion) -> bool
    ensures { IsTrue result ↔ (a.now ≡ b.now) }
{
    a == b
}

fn is_question(question: &AuthQuestion, body: &Body) -> bool
    ensures { IsTrue result ↔ (Body.ReqAuth question.now ≡ body.now) }
{
    match body {
        Body::ReqAuth(given) => same_question(question, given.get()),
        _ => false,
    }
}

fn is_word(txn: &TxnId, amount: Paise, yes: bool, body: &Body) -> bool
    ensures { IsTrue result ↔ (Body.RespAuth txn.now amount yes ≡ body.now) }
{
    match body {
        Body::RespAuth {
            txn: t,
            amount: a,
            yes: y,
        } => txn == t && amount == *a && yes == *y,
        _ => false,
    }
}

fn same_account(a: &AccountRef, b: &AccountRef) -> bool
    ensures { IsTrue result ↔ (a.now ≡ b.now) }
{
    a == b
}

fn same_extra(a: &Option<Extra>, b: &Option<Extra>) -> bool
    ensures { IsTrue result ↔ (a.now ≡ b.now) }
{
    a == b
}

fn is_order(
    txn: &TxnId,
    leg: Leg,
    amount: Paise,
    ac: &AccountRef,
    addr: &Addr,
    extra: &Option<Extra>,
    body: &Body,
) -> bool
    ensures { IsTrue result ↔ (Body.Order txn.now leg amount ac.now addr.now extra.now ≡ body.now) }
{
    match body {
        Body::Order {
            txn: t,
            leg: l,
            amount: a,
            ac: c,
            addr: d,
            extra: e,
        } => {
            txn == t
                && leg == *l
                && amount == *a
                && same_account(ac, c.get())
                && addr == d.get()
                && same_extra(extra, e)
        }
        _ => false,
    }
}

fn is_answer(txn: &TxnId, leg: Leg, answer: Answer, body: &Body) -> bool
    ensures { IsTrue result ↔ (Body.LegAnswer txn.now leg answer ≡ body.now) }
{
    match body {
        Body::LegAnswer {
            txn: t,
            leg: l,
            answer: a,
        } => txn == t && leg == *l && answer == *a,
        _ => false,
    }
}

fn is_result(txn: &TxnId, kind: Kind, outcome: Outcome, req_msg: &MsgId, body: &Body) -> bool
    ensures { IsTrue result ↔ (Body.Result txn.now kind outcome req_msg.now ≡ body.now) }
{
    match body {
        Body::Result {
            txn: t,
            kind: k,
            outcome: o,
            req_msg: m,
        } => txn == t && kind == *k && outcome == *o && req_msg == m,
        _ => false,
    }
}

fn is_confirmation(txn: &TxnId, kind: Kind, outcome: Outcome, body: &Body) -> bool
    ensures { IsTrue result ↔ (Body.Confirm txn.now kind outcome ≡ body.now) }
{
    match body {
        Body::Confirm {
            txn: t,
            kind: k,
            outcome: o,
        } => txn == t && kind == *k && outcome == *o,
        _ => false,
    }
}

fn is_confirmed(txn: &TxnId, body: &Body) -> bool
    ensures { IsTrue result ↔ (Body.Confirmed txn.now ≡ body.now) }
{
    match body {
        Body::Confirmed { txn: t } => txn == t,
        _ => false,
    }
}

fn same_body(a: &Body, b: &Body) -> bool
    ensures { IsTrue result ↔ (a.now ≡ b.now) }
{
    match a {
        Body::ReqAuth(question) => is_question(question.get(), b),
        Body::RespAuth { txn, amount, yes } => is_word(txn, *amount, *yes, b),
        Body::Order {
            txn,
            leg,
            amount,
            ac,
            addr,
            extra,
        } => is_order(txn, *leg, *amount, ac.get(), addr.get(), extra, b),
        Body::LegAnswer { txn, leg, answer } => is_answer(txn, *leg, *answer, b),
        Body::Result {
            txn,
            kind,
            outcome,
            req_msg,
        } => is_result(txn, *kind, *outcome, req_msg, b),
        Body::Confirm { txn, kind, outcome } => is_confirmation(txn, *kind, *outcome, b),
        Body::Confirmed { txn } => is_confirmed(txn, b),
    }
}

fn same_message(a: &Sent, b: &Sent) -> bool
    ensures { IsTrue result ↔ (a.now ≡ b.now) }
{
    same_party(&a.from, &b.from)
        && same_party(&a.to, &b.to)
        && same_body(&a.body, &b.body)
        && a.ver == b.ver
}

/// Whether two lists of messages are one.
pub fn same_messages(a: &[Sent], b: &[Sent]) -> bool
    ensures { IsTrue result ↔ (a.now ≡ b.now) }
{
    match a {
        [] => b.is_empty(),
        [x, a @ ..] => match b {
            [] => false,
            [y, b @ ..] => same_message(x, y) && same_messages(a, b),
        },
    }
}

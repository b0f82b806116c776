//! Orders that come before their payment was opened, and payments of version 2.0.
use std::alloc::Global;
use std::test::Fail;
use upi_base::{
    AccountRef, Addr, Body, Boxed, Call, Entry, Extra, Head, Input, Kind, Leg, Message, Moment,
    MsgId, OrgId, Paise, Party, PayReq, PspName, Reply, Sent, SentList, TwoDigits, TxnId, Ver,
};
use upi_replay::Replay;
use worked_rows::journal::{call_of, setup_of, written};
use worked_rows::rows;

const START: u64 = 1_704_067_200;

fn now() -> Result<Moment, Fail> {
    Ok(Moment::of(START).ok_or("no moment")?)
}

fn txn() -> Result<TxnId, Fail> {
    Ok(TxnId::read(b"T1").ok_or("no name")?)
}

fn extra(purpose: &[u8]) -> Result<Extra, Fail> {
    Ok(Extra {
        mode: TwoDigits::read(b"04").ok_or("no mode")?,
        purpose: TwoDigits::read(purpose).ok_or("no purpose")?,
    })
}

// Alpha asks for 30.00 from Ann to Bob.
fn payment(alloc: Global, ver: Ver, purpose: &[u8]) -> Result<Call, Fail> {
    let head = Head {
        msg_id: MsgId::read(b"A1").ok_or("no id")?,
        org: OrgId::read(b"alpha").ok_or("no member")?,
        ts: now()?,
        ver,
    };
    let payer = Addr::read(b"ann@alpha").ok_or("no payer")?;
    let payee = Addr::read(b"bob@beta").ok_or("no payee")?;
    let amount = Paise::of(3000).ok_or("no amount")?;
    let request = match ver {
        Ver::One => PayReq {
            head,
            kind: Kind::Pay,
            txn: txn()?,
            note: None,
            expire: None,
            payer,
            payee,
            amount,
            payer_ac: None,
            payee_ac: None,
            extra: None,
        },
        Ver::Two => PayReq {
            head,
            kind: Kind::Pay,
            txn: txn()?,
            note: None,
            expire: None,
            payer,
            payee,
            amount,
            payer_ac: None,
            payee_ac: None,
            extra: Some(extra(purpose)?),
        },
    };
    Ok(Call::Hear {
        psp: PspName::read(b"alpha").ok_or("no PSP")?,
        input: Input::Good(Message::Pay(Boxed::new(alloc, request)?)),
    })
}

// An order of 30.00 for Ann's account.
fn order(alloc: Global, leg: Leg) -> Result<Sent, Fail> {
    let ac = AccountRef::read(b"AAAA/1").ok_or("no account")?;
    Ok(Sent {
        from: Party::Switch,
        to: Party::Bank(ac.bank.copy()),
        body: Body::Order {
            txn: txn()?,
            leg,
            amount: Paise::of(3000).ok_or("no amount")?,
            ac: Boxed::new(alloc, ac)?,
            addr: Boxed::new(alloc, Addr::read(b"ann@alpha").ok_or("no address")?)?,
            extra: None,
        },
        ver: Ver::One,
    })
}

// A switch whose history begins with an entry that sends orders for the reversal and the debit of
// a payment that nobody asked for.
fn forged(alloc: Global) -> Result<Replay, Fail> {
    let mut switch = Replay::new(alloc, setup_of(alloc, rows::SETUP)?.lines);
    let mut sent = Vec::new(alloc);
    sent.push(order(alloc, Leg::Reversal)?)?;
    sent.push(order(alloc, Leg::Debit)?)?;
    switch.push(Entry {
        call: call_of(alloc, b"E 1 0 0 LATE T9")?,
        at: now()?,
        caller: 0,
        reply: Reply::NotDue,
        sent: SentList::of(sent),
    })?;
    Ok(switch)
}

fn go_on(alloc: Global, switch: &mut Replay, line: &[u8]) -> Result<(), Fail> {
    let step = switch.plan(0, call_of(alloc, line)?, now()?)?;
    switch.commit(step)?;
    Ok(())
}

#[test]
fn an_order_before_its_opening_finds_nothing(rt: HostRuntime) -> Result<(), Fail> {
    let alloc = rt.alloc();
    let mut switch = forged(alloc)?;
    go_on(alloc, &mut switch, b"E 2 0 0 DELIVER 1")?;
    let pay = b"E 3 0 0 HEAR alpha PAY T1 30.00 ann@alpha bob@beta - - - = OK";
    go_on(alloc, &mut switch, pay)?;
    go_on(alloc, &mut switch, b"E 4 0 0 DELIVER 2")?;
    go_on(alloc, &mut switch, b"E 5 0 0 DELIVER 1")?;
    let wanted = b"= NOTDUE
M 1 SWITCH AAAA REVERSAL T1 30.00 AAAA/1
M 2 SWITCH AAAA DEBIT T1 30.00 AAAA/1
= DECLINED NOTHING
M 3 AAAA SWITCH ANSWER T1 REVERSAL DECLINED NOTHING
= OK
M 4 SWITCH beta REQAUTH T1 30.00
= DECLINED REVERSED
M 5 AAAA SWITCH ANSWER T1 DEBIT DECLINED REVERSED
= DECLINED NOTHING
M 6 AAAA SWITCH ANSWER T1 REVERSAL DECLINED NOTHING
";
    assert_eq!(rt;
        written(alloc, switch.entries())?.as_slice(),
        wanted.as_slice()
    );
    assert_eq!(rt; switch.flight(), 0);
    Ok(())
}

fn reply_to(switch: &mut Replay, call: Call) -> Result<Reply, Fail> {
    let step = switch.plan(0, call, now()?)?;
    let reply = step.entry.reply;
    switch.commit(step)?;
    Ok(reply)
}

#[test]
fn a_payment_of_version_two_comes_again(rt: HostRuntime) -> Result<(), Fail> {
    let alloc = rt.alloc();
    let mut switch = Replay::new(alloc, setup_of(alloc, rows::SETUP)?.lines);
    let ok = Reply::Ack(None);
    let dup = Reply::Ack(Some(upi_base::Code::Dup));
    let opened = reply_to(&mut switch, payment(alloc, Ver::Two, b"01")?)?;
    assert_eq!(rt; opened, ok);
    let again = reply_to(&mut switch, payment(alloc, Ver::Two, b"01")?)?;
    assert_eq!(rt; again, ok);
    let other = reply_to(&mut switch, payment(alloc, Ver::Two, b"02")?)?;
    assert_eq!(rt; other, dup);
    let older = reply_to(&mut switch, payment(alloc, Ver::One, b"01")?)?;
    assert_eq!(rt; older, dup);
    let question = switch.message(1).ok_or("nothing was sent")?;
    assert_eq!(rt; question.ver, Ver::Two);
    let carried = match &question.body {
        Body::ReqAuth(question) => question.get().extra == Some(extra(b"01")?),
        _ => false,
    };
    assert!(rt; carried);
    Ok(())
}

// Beta's model says yes, and Ann's bank posts the debit: both answer in the version that they heard.
#[test]
fn answers_have_the_version_that_they_answer(rt: HostRuntime) -> Result<(), Fail> {
    let alloc = rt.alloc();
    let mut switch = Replay::new(alloc, setup_of(alloc, rows::SETUP)?.lines);
    let opened = reply_to(&mut switch, payment(alloc, Ver::Two, b"01")?)?;
    assert_eq!(rt; opened, Reply::Ack(None));
    go_on(alloc, &mut switch, b"E 2 0 0 DELIVER 1")?;
    go_on(alloc, &mut switch, b"E 3 0 0 DELIVER 2")?;
    go_on(alloc, &mut switch, b"E 4 0 0 DELIVER 3")?;
    assert_eq!(rt; switch.sent_count(), 4);
    for number in 1..5 {
        let sent = switch.message(number).ok_or("not sent")?;
        assert_eq!(rt; sent.ver, Ver::Two);
    }
    let ordered = match &switch.message(3).ok_or("no order")?.body {
        Body::Order {
            txn: _txn,
            leg,
            amount: _amount,
            ac: _ac,
            addr: _addr,
            extra: carried,
        } => *leg == Leg::Debit && *carried == Some(extra(b"01")?),
        _ => false,
    };
    assert!(rt; ordered);
    assert!(rt; switch.message(0).is_none() && switch.message(5).is_none());
    Ok(())
}

#[test]
fn what_is_due_stands_in_order(rt: HostRuntime) -> Result<(), Fail> {
    let alloc = rt.alloc();
    let mut switch = Replay::new(alloc, setup_of(alloc, rows::SETUP)?.lines);
    for line in [
        b"E 1 0 0 HEAR alpha PAY T2 1.00 ann@alpha bob@beta - - - = OK".as_slice(),
        b"E 2 0 0 HEAR alpha PAY T10 1.00 ann@alpha bob@beta - - - = OK".as_slice(),
        b"E 3 0 0 HEAR alpha PAY T1 1.00 ann@alpha bob@beta - - - = OK".as_slice(),
    ] {
        go_on(alloc, &mut switch, line)?;
    }
    assert!(rt; switch.due(START + 29)?.is_empty());
    let mut names = Vec::new(alloc);
    for due in &switch.due(START + 30)? {
        assert_eq!(rt; due.0, START + 30);
        names.extend_from_slice(due.1.bytes())?;
        names.push(b' ')?;
    }
    assert_eq!(rt; names.as_slice(), b"T1 T10 T2 ".as_slice());
    Ok(())
}

//! The written form of messages.
use crate::texts::WRITTEN;
use crate::walk::{heard, is_written, json};
use std::alloc::Global;
use std::test::Fail;
use upi_base::{
    AcNum, AccountRef, Addr, Api, AuthResp, BankCode, Boxed, Chk, ConfResp, Head, Input, Kind,
    Message, Minutes, Moment, MsgId, Note, OrgId, Paise, PayReq, TxnId, Ver,
};

fn head(name: &[u8], org: &[u8]) -> Option<Head> {
    Some(Head {
        msg_id: MsgId::read(name)?,
        org: OrgId::read(org)?,
        ts: Moment::of(1_704_067_200)?,
        ver: Ver::One,
    })
}

fn account(bank: &[u8], num: &[u8]) -> Option<AccountRef> {
    Some(AccountRef {
        bank: BankCode::read(bank)?,
        num: AcNum::read(num)?,
    })
}

fn payment(alloc: Global) -> Option<Message> {
    let asked = PayReq {
        head: Head {
            ver: Ver::One,
            ..head(b"A1", b"alpha")?
        },
        kind: Kind::Pay,
        txn: TxnId::read(b"T1")?,
        note: None,
        expire: None,
        payer: Addr::read(b"ann@alpha")?,
        payee: Addr::read(b"bob@beta")?,
        amount: Paise::of(3_000)?,
        payer_ac: None,
        payee_ac: None,
        extra: None,
    };
    Some(Message::Pay(Boxed::new(alloc, asked).ok()?))
}

fn collect(alloc: Global) -> Option<Message> {
    let asked = PayReq {
        head: Head {
            ver: Ver::One,
            ..head(b"B1", b"beta")?
        },
        kind: Kind::Collect,
        txn: TxnId::read(b"C1")?,
        note: Note::read(b"for \"tea\" \\ cake"),
        expire: Minutes::of(1),
        payer: Addr::read(b"ann@alpha")?,
        payee: Addr::read(b"bob@beta")?,
        amount: Paise::of(3_000)?,
        payer_ac: account(b"AAAA", b"1"),
        payee_ac: account(b"BBBB", b"2"),
        extra: None,
    };
    Some(Message::Pay(Boxed::new(alloc, asked).ok()?))
}

fn refusal(alloc: Global) -> Option<Message> {
    let word = AuthResp {
        head: head(b"A2", b"alpha")?,
        req_msg: MsgId::read(b"M1")?,
        txn: TxnId::read(b"C1")?,
        yes: false,
        amount: Paise::of(3_000)?,
        payer_ac: None,
        payee_ac: account(b"BBBB", b"2"),
    };
    Some(Message::AuthAnswer(Boxed::new(alloc, word).ok()?))
}

fn confirmed(alloc: Global) -> Option<Message> {
    let word = ConfResp {
        head: head(b"B2", b"beta")?,
        req_msg: MsgId::read(b"M1")?,
        txn: TxnId::read(b"T1")?,
    };
    Some(Message::Confirmed(Boxed::new(alloc, word).ok()?))
}

// The message of each line of the table.
fn message(alloc: Global, line: usize) -> Option<Message> {
    match line {
        0 => payment(alloc),
        1 => collect(alloc),
        2 => refusal(alloc),
        3 => Some(Message::Check(Chk {
            head: head(b"A3", b"alpha")?,
            txn: TxnId::read(b"T1")?,
        })),
        4 => confirmed(alloc),
        5 => Some(Message::Foreign {
            api: Api::ReqTxnConfirmation,
            head: head(b"A9", b"alpha")?,
        }),
        _ => None,
    }
}

// Whether the message of a line is written so, and read back.
fn is_form(alloc: Global, line: usize, expected: &str) -> Result<bool, Fail> {
    let message = message(alloc, line).ok_or("a message")?;
    let text = json(alloc, expected)?;
    match heard(alloc, &text)? {
        Input::Good(back) => Ok(is_written(alloc, &message, &text)? && back == message),
        Input::Bad(_fault) => Ok(false),
    }
}

#[test]
fn written_messages(rt: HostRuntime) -> Result<(), Fail> {
    let alloc = rt.alloc();
    for (line, expected) in WRITTEN.lines().enumerate() {
        assert!(rt; is_form(alloc, line, expected)?, "{expected}");
    }
    assert_eq!(rt; WRITTEN.lines().count(), 6);
    Ok(())
}

//! Which texts are read, and what is told of the others.
use crate::faults::*;
use crate::texts::*;
use crate::walk::{
    exchanged, first_unread, first_wrong, first_wrong_line, first_wrong_text, is_fault, is_read,
    is_read_as, json, push_json,
};
use std::alloc::Global;
use std::test::Fail;

#[test]
fn faults_of_members(rt: HostRuntime) -> Result<(), Fail> {
    let alloc = rt.alloc();
    for (base, place, table) in [
        (PAY, "ReqPay.", HEAD_FAULTS),
        (ANSWER, "RespAuthDetails.", HEAD_FAULTS),
        (CHECK, "ReqChkTxn.", HEAD_FAULTS),
        (CONFIRMED, "RespTxnConfirmation.", HEAD_FAULTS),
        (FOREIGN, "RespPay.", HEAD_FAULTS),
        (PAY, "ReqPay.", PAY_FAULTS),
        (ANSWER, "RespAuthDetails.", ANSWER_FAULTS),
        (CHECK, "ReqChkTxn.", CHECK_FAULTS),
        (CONFIRMED, "RespTxnConfirmation.", CONFIRMED_FAULTS),
    ] {
        assert!(rt; first_wrong(alloc, base, place, table)? == None, "{place}");
    }
    Ok(())
}

#[test]
fn faults_of_accounts_and_amounts(rt: HostRuntime) -> Result<(), Fail> {
    let alloc = rt.alloc();
    for (base, place, part, lines) in [
        (PAY, "ReqPay.Payer.", PAYER_ACCOUNT, ACCOUNT_FAULTS),
        (
            PAY,
            "ReqPay.Payees.Payee[0].",
            PAYEE_ACCOUNT,
            ACCOUNT_FAULTS,
        ),
        (
            ANSWER,
            "RespAuthDetails.Payer.",
            ANSWER_ACCOUNT,
            ACCOUNT_FAULTS,
        ),
        (
            ANSWER,
            "RespAuthDetails.Payees.Payee[0].",
            PAYEE_ACCOUNT,
            ACCOUNT_FAULTS,
        ),
        (PAY, "ReqPay.Payer.", PAYER_AMOUNT, AMOUNT_FAULTS),
        (PAY, "ReqPay.Payees.Payee[0].", PAYEE_AMOUNT, AMOUNT_FAULTS),
        (
            ANSWER,
            "RespAuthDetails.Payer.",
            ANSWER_AMOUNT,
            AMOUNT_FAULTS,
        ),
        (PAY, "ReqPay.Payer.", PAYER_AMOUNT, AMOUNT_MISSING),
        (
            ANSWER,
            "RespAuthDetails.Payer.",
            ANSWER_AMOUNT,
            AMOUNT_MISSING,
        ),
        (PAY, "ReqPay.Payees.Payee[0].", PAYEE_AMOUNT, AMOUNT_DIFFERS),
    ] {
        assert!(rt;
            first_wrong_line(alloc, base, place, part, lines)? == None,
            "{place}"
        );
    }
    Ok(())
}

#[test]
fn whole_texts(rt: HostRuntime) -> Result<(), Fail> {
    let alloc = rt.alloc();
    for base in [PAY, ANSWER] {
        assert!(rt; is_read(alloc, &json(alloc, base)?)?, "{base}");
    }
    for base in [CHECK, CONFIRMED, FOREIGN] {
        let text = json(alloc, base)?;
        assert!(rt; is_read_as(alloc, &text, &text)?, "{base}");
    }
    assert!(rt; first_wrong_text(alloc, WHOLE_FAULTS)? == None);
    assert!(rt; first_wrong_text(alloc, FIRST_FAULTS)? == None);
    assert!(rt; first_unread(alloc, PLAIN, FORMS)? == None);
    Ok(())
}

// A payment with another member: lists in one another.
fn nested(alloc: Global, deep: usize) -> Result<Vec<u8>, Fail> {
    let (front, behind) = PLAIN.split_once("'Head'").ok_or("a head")?;
    let mut text = json(alloc, front)?;
    push_json("'x':", &mut text)?;
    for _opened in 0..deep {
        text.push(b'[')?;
    }
    for _closed in 0..deep {
        text.push(b']')?;
    }
    push_json(",'Head'", &mut text)?;
    push_json(behind, &mut text)?;
    Ok(text)
}

#[test]
fn limits_of_texts(rt: HostRuntime) -> Result<(), Fail> {
    let alloc = rt.alloc();
    assert!(rt; is_read_as(alloc, &nested(alloc, 125)?, &json(alloc, PLAIN)?)?);
    assert!(rt; is_fault(alloc, &nested(alloc, 126)?, "", "-", "JSON")?);
    assert!(rt; is_fault(alloc, b"", "", "-", "JSON")?);
    assert!(rt; is_fault(alloc, b"{\"ReqPay\":\"\xff\"}", "", "-", "JSON")?);
    let far = exchanged(alloc, PLAIN, "'Txn':{", "'x':-1e400,'Txn':{")?;
    assert!(rt; is_fault(alloc, &far, "", "-", "JSON")?);
    let [given, written] = MINUTES;
    let given = exchanged(alloc, PLAIN, "'id':'T1'", given)?;
    let written = exchanged(alloc, PLAIN, "'id':'T1'", written)?;
    assert!(rt; is_read_as(alloc, &given, &written)?);
    Ok(())
}

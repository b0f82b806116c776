use super::*;
use std::test::Fail;

#[test]
fn names(rt: HostRuntime) {
    assert!(rt; TxnId::read(b"T-1.a_Z").is_some());
    assert!(rt; TxnId::read(b"").is_none());
    assert!(rt; TxnId::read(b"T 1").is_none());
    assert!(rt; TxnId::read(&[b'a'; 35]).is_some());
    assert!(rt; TxnId::read(&[b'a'; 36]).is_none());
    assert!(rt; MsgId::read(&[b'a'; 36]).is_none());
    assert!(rt; OrgId::read(&[b'a'; 20]).is_some());
    assert!(rt; OrgId::read(&[b'a'; 21]).is_none());
    assert!(rt; PspName::read(b"alpha9").is_some());
    assert!(rt; PspName::read(b"9alpha").is_none());
    assert!(rt; PspName::read(b"Alpha").is_none());
    assert!(rt; PspName::read(&[b'a'; 21]).is_none());
    assert!(rt; BankCode::read(b"AAAA").is_some());
    assert!(rt; BankCode::read(b"AAA").is_none());
    assert!(rt; BankCode::read(b"AAA1").is_none());
    assert!(rt; BankCode::read(b"AAAAA").is_none());
    assert!(rt; AcNum::read(&[b'1'; 20]).is_some());
    assert!(rt; AcNum::read(&[b'1'; 21]).is_none());
    assert!(rt; AcNum::read(b"1-A").is_none());
}

#[test]
fn addresses_notes_and_paths(rt: HostRuntime) {
    assert!(rt; Addr::read(b"ann@alpha").is_some());
    assert!(rt; Addr::read(b"@alpha").is_none());
    assert!(rt; Addr::read(b"ann@").is_none());
    assert!(rt; Addr::read(b"ann@alpha@beta").is_none());
    assert!(rt; Addr::read(b"aaaaaaaaaaaaaaaaaaaaaaaaaaaaaaaaaaaaaaaaaaaaaaaaaa@alpha").is_some());
    assert!(rt; Addr::read(b"aaaaaaaaaaaaaaaaaaaaaaaaaaaaaaaaaaaaaaaaaaaaaaaaaaa@alpha").is_none());
    assert!(rt; Note::read("caf\u{e9}".as_bytes()).is_some());
    assert!(rt; Note::read(&[0xe9]).is_none());
    assert!(rt; Note::read(b"a\nb").is_none());
    assert!(rt; Note::read(&[127]).is_none());
    assert!(rt; Note::read(&[b' '; 100]).is_some());
    assert!(rt; Note::read(&[b' '; 101]).is_none());
    assert!(rt; PathText::read(b"-").is_some());
    assert!(rt; PathText::read(b"Payees.Payee[0].addr").is_some());
    assert!(rt; PathText::read(b"--").is_none());
    assert!(rt; TwoDigits::read(b"05").is_some());
    assert!(rt; TwoDigits::read(b"5").is_none());
    assert!(rt; TwoDigits::read(b"005").is_none());
    assert!(rt; TwoDigits::read(b"0a").is_none());
}

#[test]
fn copies(rt: HostRuntime) -> Result<(), Fail> {
    let one = TxnId::read(b"T1").ok_or("a name")?;
    let ten = TxnId::read(b"T10").ok_or("a name")?;
    assert!(rt; one.copy() == one);
    assert!(rt; one != ten);
    assert!(rt; one < ten);
    assert!(rt; ten.bytes() == b"T10".as_slice());
    Ok(())
}

#[test]
fn copies_of_what_was_heard(rt: HostRuntime) -> Result<(), Fail> {
    let msg_id = MsgId::read(b"M1").ok_or("a name")?;
    let req_msg = msg_id.copy();
    let org = OrgId::read(b"alpha").ok_or("a member")?;
    let ts = Moment::of(0).ok_or("a moment")?;
    let head = Head {
        msg_id,
        org,
        ts,
        ver: Ver::One,
    };
    let txn = TxnId::read(b"T1").ok_or("a name")?;
    let answer = ConfResp { head, req_msg, txn };
    let message = Message::Confirmed(Boxed::new(rt.alloc(), answer)?);
    let psp = PspName::read(b"alpha").ok_or("a PSP")?;
    let input = Input::Good(message);
    let call = Call::Hear { psp, input };
    assert!(rt; call.copy(rt.alloc())? == call);
    Ok(())
}

#[test]
fn sums(rt: HostRuntime) -> Result<(), Fail> {
    let rows = [
        (b"7.5".as_slice(), Some(750), b"7.50".as_slice()),
        (b"0".as_slice(), Some(0), b"0.00".as_slice()),
        (b"0030.05".as_slice(), Some(3005), b"30.05".as_slice()),
        (
            b"10000000000000.00".as_slice(),
            Some(1_000_000_000_000_000),
            b"10000000000000.00".as_slice(),
        ),
        (b"10000000000000.01".as_slice(), None, b"".as_slice()),
        (b"000000000000001".as_slice(), None, b"".as_slice()),
        (b"1.".as_slice(), None, b"".as_slice()),
        (b".5".as_slice(), None, b"".as_slice()),
        (b"1.005".as_slice(), None, b"".as_slice()),
        (b"-1".as_slice(), None, b"".as_slice()),
        (b"".as_slice(), None, b"".as_slice()),
    ];
    for (text, sum, again) in rows {
        let found = Paise::read(text);
        let mut out = Vec::new(rt.alloc());
        match &found {
            Some(p) => {
                assert_eq!(rt; Some(p.get()), sum);
                p.write(&mut out)?;
            }
            None => assert_eq!(rt; None, sum),
        }
        assert_eq!(rt; out.as_slice(), again);
    }
    Ok(())
}

#[test]
fn signed_sums(rt: HostRuntime) -> Result<(), Fail> {
    let mut out = Vec::new(rt.alloc());
    write_sum(-3000, &mut out)?;
    out.push(b' ')?;
    write_sum(3000, &mut out)?;
    out.push(b' ')?;
    write_sum(-5, &mut out)?;
    out.push(b' ')?;
    write_sum(2_000_000_000_000_000_000_001, &mut out)?;
    out.push(b' ')?;
    write_number(1_704_067_200, &mut out)?;
    assert_eq!(rt;
        out.as_slice(),
        b"-30.00 30.00 -0.05 20000000000000000000.01 1704067200".as_slice()
    );
    Ok(())
}

#[test]
fn moments(rt: HostRuntime) {
    let rows = [
        (b"2024-01-01T05:30:00+05:30".as_slice(), Some(1_704_067_200)),
        (b"2024-01-01T00:00:00Z".as_slice(), Some(1_704_067_200)),
        (b"2024-01-01T00:00:00.999Z".as_slice(), Some(1_704_067_200)),
        (b"2023-12-31T23:00:00-01:00".as_slice(), Some(1_704_067_200)),
        (b"1970-01-01T05:30:00+05:30".as_slice(), Some(0)),
        (b"2024-02-30T00:00:00Z".as_slice(), None),
        (b"2023-02-29T00:00:00Z".as_slice(), None),
        (b"1969-12-31T23:59:59Z".as_slice(), None),
        (b"2024-01-01T24:00:00Z".as_slice(), None),
        (b"2024-01-01T00:60:00Z".as_slice(), None),
        (b"2024-01-01T00:00:60Z".as_slice(), None),
        (b"2024-01-01T00:00:00".as_slice(), None),
        (b"2024-01-01T00:00:00.Z".as_slice(), None),
        (b"2024-01-01T00:00:00.1234567890Z".as_slice(), None),
        (b"2024-01-01T00:00:00+24:00".as_slice(), None),
        (b"9999-12-31T00:00:00Z".as_slice(), None),
    ];
    for (text, second) in rows {
        assert_eq!(rt; Moment::read(text).map(|m| m.get()), second);
    }
}

#[test]
fn written_moments(rt: HostRuntime) -> Result<(), Fail> {
    let rows = [
        (0, b"1970-01-01T05:30:00+05:30".as_slice()),
        (1_704_067_200, b"2024-01-01T05:30:00+05:30".as_slice()),
        (951_762_599, b"2000-02-28T23:59:59+05:30".as_slice()),
        (951_762_600, b"2000-02-29T00:00:00+05:30".as_slice()),
        (250_000_000_000, b"9892-03-08T17:56:40+05:30".as_slice()),
    ];
    for (second, text) in rows {
        let mut out = Vec::new(rt.alloc());
        Moment::of(second).ok_or("a moment")?.write(&mut out)?;
        assert_eq!(rt; out.as_slice(), text);
    }
    Ok(())
}

#[test]
fn accounts_and_shards(rt: HostRuntime) -> Result<(), Fail> {
    assert!(rt; AccountRef::read(b"AAAA").is_none());
    assert!(rt; AccountRef::read(b"AAAA/").is_none());
    assert!(rt; AccountRef::read(b"AAA/11").is_none());
    assert!(rt; AccountRef::read(b"AAAA-1").is_none());
    let ac = AccountRef::read(b"AAAA/1").ok_or("an account")?;
    let txn = TxnId::read(b"T1").ok_or("a name")?;
    let mut out = Vec::new(rt.alloc());
    write_account(&ac, &mut out)?;
    assert_eq!(rt; out.as_slice(), b"AAAA/1".as_slice());
    assert_eq!(rt; txn_shard(&txn), 13);
    assert_eq!(rt; account_shard(&ac), 2);
    Ok(())
}

#[test]
fn a_bank_twice(rt: HostRuntime) -> Result<(), Fail> {
    let line = SetupLine::Bank(BankCode::read(b"AAAA").ok_or("a code")?);
    let mut lines = SetupLines::new(rt.alloc());
    assert!(rt; setup_fault(lines.items(), &line).is_none());
    lines.push(line.copy())?;
    assert_eq!(rt; setup_fault(lines.items(), &line), Some(Why::Twice));
    Ok(())
}

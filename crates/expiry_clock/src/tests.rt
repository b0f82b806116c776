use super::*;
use std::test::Fail;

fn name(text: &[u8]) -> Result<TxnId, Fail> {
    Ok(TxnId::read(text).ok_or("a name")?)
}

fn has(found: &[(u64, TxnId)], wanted: &[(u64, TxnId)]) -> bool {
    found == wanted
}

#[test]
fn what_is_due_comes_in_order(rt: HostRuntime) -> Result<(), Fail> {
    let alloc = rt.alloc();
    let one = name(b"T1")?;
    let two = name(b"T2")?;
    let mut index = DueIndex::new(alloc, RandomState::new(&rt)?);
    assert!(rt; index.least() == None);
    assert!(rt; index.due(u64::MAX)?.is_empty());
    index.reserve(2)?;
    index.set(one.copy(), 30);
    if index.spare() > 0 {
        index.set(two.copy(), 10);
    }
    assert!(rt; index.len() == 2);
    assert!(rt; has(&index.due(30)?, &[(10, two.copy()), (30, one.copy())]));
    assert!(rt; index.due(9)?.is_empty());
    assert!(rt; index.least() == Some(10));
    index.remove(&two);
    assert!(rt; has(&index.due(30)?, &[(30, one.copy())]));
    assert!(rt; index.get(&two) == None && index.get(&one) == Some(30));
    assert!(rt; index.least() == Some(30));
    index.remove(&two);
    index.remove(&one);
    assert!(rt; index.is_empty() && index.least() == None);
    Ok(())
}

// Those that are due at one moment go by the bytes of their names, and a transaction has one moment.
#[test]
fn names_break_ties(rt: HostRuntime) -> Result<(), Fail> {
    let alloc = rt.alloc();
    let mut index = DueIndex::new(alloc, RandomState::new(&rt)?);
    for text in [b"b".as_slice(), b"ab", b"a", b"B", b"a.", b"ab"] {
        index.reserve(1)?;
        if index.spare() > 0 {
            index.set(name(text)?, u64::MAX);
        }
    }
    assert!(rt; index.least() == Some(u64::MAX));
    assert!(rt; index.due(u64::MAX - 1)?.is_empty());
    let mut names = Vec::new(alloc);
    for (_due, txn) in &index.due(u64::MAX)? {
        names.extend_from_slice(txn.bytes())?;
        names.push(b' ')?;
    }
    assert!(rt; names.as_slice() == b"B a a. ab b ".as_slice());
    Ok(())
}

// As many transactions as make the tree grow several times, set in no order. The powers of 11 are all
// numbers below 1009, which is a prime; the last eight of them aren't set: 476, 191, 83, 913, 962, 492,
// 367 and 1. So each number from 500 to 700 is there.
#[test]
fn many_are_found(rt: HostRuntime) -> Result<(), Fail> {
    let alloc = rt.alloc();
    let mut index = DueIndex::new(alloc, RandomState::new(&rt)?);
    let mut order = 1u32;
    for _round in 0..1000 {
        order = (order % 1009) * 11 % 1009;
        index.reserve(1)?;
        if index.spare() > 0 {
            index.set(
                name(format!(in alloc; "T{order}")?.as_bytes())?,
                u64::from(order),
            );
        }
    }
    for k in 0..500 {
        index.remove(&name(format!(in alloc; "T{k}")?.as_bytes())?);
    }
    assert!(rt; index.least() == Some(500));
    let found = index.due(700)?;
    let mut last = 499;
    for (at, txn) in &found {
        assert!(rt; *at > last && *at <= 700 && index.get(txn) == Some(*at));
        last = *at;
    }
    assert!(rt; found.len() == 201);
    Ok(())
}

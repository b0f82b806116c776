use super::*;
use std::test::Fail;
use upi_base::{Answer, Code, Leg, TxnId};

#[test]
fn the_first_value_stays(rt: HostRuntime) -> Result<(), Fail> {
    let mut table = DupTable::new(rt.alloc(), RandomState::new(&rt)?);
    assert!(rt; table.is_empty());
    table.reserve(2)?;
    assert!(rt; table.spare() >= 2);
    assert!(rt; table.put(5, 'a') == Put::First);
    assert!(rt; table.put(5, 'b') == Put::Again('a'));
    assert!(rt; table.get(&5) == Some(&'a'));
    assert!(rt; table.get(&6) == None);
    assert!(rt; table.put(6, 'c') == Put::First);
    assert!(rt; table.len() == 2);
    Ok(())
}

// The key that postings have: a transaction and a leg.
#[test]
fn each_leg_has_its_own(rt: HostRuntime) -> Result<(), Fail> {
    let txn = TxnId::read(b"T1").ok_or("a name")?;
    let mut answers = DupTable::new(rt.alloc(), RandomState::new(&rt)?);
    answers.reserve(3)?;
    let declined = Answer::Declined(Code::Funds);
    assert!(rt; answers.put((txn.copy(), Leg::Debit), declined) == Put::First);
    assert!(rt; answers.put((txn.copy(), Leg::Reversal), Answer::Posted) == Put::First);
    assert!(rt; answers.put((txn.copy(), Leg::Debit), Answer::Posted) == Put::Again(declined));
    assert!(rt; answers.get(&(txn.copy(), Leg::Credit)) == None);
    assert!(rt; answers.get(&(txn, Leg::Debit)) == Some(&declined));
    Ok(())
}

#[test]
fn a_table_grows(rt: HostRuntime) -> Result<(), Fail> {
    let mut table = DupTable::new(rt.alloc(), RandomState::new(&rt)?);
    for key in 0..10_000u32 {
        table.reserve(1)?;
        if table.spare() > 0 {
            assert!(rt; table.put(key, key + 1) == Put::First);
        }
    }
    assert!(rt; table.len() == 10_000);
    for key in 0..10_000u32 {
        assert!(rt; table.get(&key) == Some(&(key + 1)));
    }
    Ok(())
}

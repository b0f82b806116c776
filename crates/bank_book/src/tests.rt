use super::*;
use std::test::Fail;

fn account(text: &[u8]) -> Result<AccountRef, Fail> {
    Ok(AccountRef::read(text).ok_or("an account")?)
}

#[test]
fn balances_move(rt: HostRuntime) -> Result<(), Fail> {
    let ann = account(b"AAAA/1")?;
    let bob = account(b"BBBB/1")?;
    let amount = Paise::of(3000).ok_or("a sum")?;
    let mut book = Book::new(rt.alloc(), RandomState::new(&rt)?);
    assert!(rt; book.balance(&ann) == None);
    book.add(ann.copy(), Paise::of(10_000).ok_or("a sum")?, false, false)?;
    assert!(rt; book.balance(&bob) == None);
    assert!(rt; book.balance(&ann) == Some(10_000));
    book.take(&ann, amount);
    assert!(rt; book.balance(&ann) == Some(7000));
    book.give(&ann, amount);
    book.give(&ann, amount);
    assert!(rt; book.balance(&ann) == Some(13_000));
    Ok(())
}

#[test]
fn flags_are_each_account_s_own(rt: HostRuntime) -> Result<(), Fail> {
    let ann = account(b"AAAA/1")?;
    let other = account(b"AAAA/2")?;
    let sum = Paise::of(0).ok_or("a sum")?;
    let mut book = Book::new(rt.alloc(), RandomState::new(&rt)?);
    book.add(ann.copy(), sum, true, false)?;
    if book.balance(&other).is_none() {
        book.add(other.copy(), sum, false, true)?;
    }
    assert!(rt; book.no_debit(&ann) && !book.no_credit(&ann));
    assert!(rt; book.no_credit(&other) && !book.no_debit(&other));
    let unknown = account(b"BBBB/1")?;
    assert!(rt; !book.no_debit(&unknown) && !book.no_credit(&unknown));
    Ok(())
}

use super::*;
use std::alloc::Global;
use std::test::Fail;
use upi_base::{
    BankCode, Code, Item, NoMemory, Outcome, Paise, TxnId, TxnRow, side_word, write_number,
};

// A row of a transaction.
fn row(
    txn: &[u8],
    payer: &[u8],
    payee: &[u8],
    paise: u64,
    outcome: Option<Outcome>,
    credit_moved: bool,
) -> Result<TxnRow, NoMemory> {
    Ok(TxnRow {
        txn: TxnId::read(txn).ok_or(NoMemory)?,
        payer_bank: BankCode::read(payer).ok_or(NoMemory)?,
        payee_bank: BankCode::read(payee).ok_or(NoMemory)?,
        amount: Paise::of(paise).ok_or(NoMemory)?,
        outcome,
        credit_moved,
    })
}

// T1 succeeded, and T2 failed; T3 and T4 are deemed, and T3's credit didn't move; T5 was within a
// bank.
fn settled(alloc: Global) -> Result<Settlement, NoMemory> {
    let success = Some(Outcome::Success);
    let failure = Some(Outcome::Failure(Code::Funds));
    let deemed = Some(Outcome::Deemed);
    let mut rows = Vec::new(alloc);
    rows.push(row(b"T1", b"AAAA", b"BBBB", 3_000, success, true)?)?;
    rows.push(row(b"T2", b"AAAA", b"BBBB", 7, failure, false)?)?;
    rows.push(row(b"T3", b"BBBB", b"AAAA", 500, deemed, false)?)?;
    rows.push(row(b"T4", b"BBBB", b"AAAA", 20, deemed, true)?)?;
    rows.push(row(b"T5", b"AAAA", b"AAAA", 9, success, true)?)?;
    Settlement::of(alloc, &rows)
}

// Items as text: of each its transaction, its side and its paise.
fn told(alloc: Global, items: &[Item]) -> Result<Vec<u8>, NoMemory> {
    let mut out = Vec::new(alloc);
    for item in items {
        out.extend_from_slice(item.txn.bytes())?;
        out.push(b' ')?;
        out.extend_from_slice(side_word(item.side))?;
        out.push(b' ')?;
        write_number(item.amount.get(), &mut out)?;
        out.push(b';')?;
    }
    Ok(out)
}

// What a bank has on its list, and its net.
fn at(alloc: Global, bank: &[u8]) -> Result<(Vec<u8>, i128), NoMemory> {
    let settlement = settled(alloc)?;
    let bank = BankCode::read(bank).ok_or(NoMemory)?;
    let items = settlement.items(&bank)?;
    Ok((told(alloc, &items)?, settlement.net(&bank)))
}

#[test]
fn lists_and_nets(rt: HostRuntime) -> Result<(), Fail> {
    let (items, net) = at(rt.alloc(), b"AAAA")?;
    assert_eq!(rt;
        items.as_slice(),
        b"T1 PAID 3000;T3 RECEIVED 500;T4 RECEIVED 20;T5 PAID 9;T5 RECEIVED 9;".as_slice()
    );
    assert_eq!(rt; net, -2_480);
    let (items, net) = at(rt.alloc(), b"BBBB")?;
    assert_eq!(rt;
        items.as_slice(),
        b"T1 RECEIVED 3000;T3 PAID 500;T4 PAID 20;".as_slice()
    );
    assert_eq!(rt; net, 2_480);
    let (items, net) = at(rt.alloc(), b"CCCC")?;
    assert!(rt; items.is_empty());
    assert_eq!(rt; net, 0);
    Ok(())
}

#[test]
fn one_reconciliation_item(rt: HostRuntime) -> Result<(), Fail> {
    let items = settled(rt.alloc())?.recon()?;
    assert_eq!(rt; items.len(), 1);
    assert_eq!(rt; items[0].txn.bytes(), b"T3".as_slice());
    assert_eq!(rt; items[0].bank.bytes(), b"AAAA".as_slice());
    assert_eq!(rt; items[0].amount.get(), 500);
    Ok(())
}

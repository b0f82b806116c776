//! The items of each bank, in the order in which they were added.
ghost use Rattle.std.specs.Prelude.{◌≡◌, ◌++◌, OnOk, IfOk};
ghost use Rattle.std.specs.Str.{bytes_eq};
ghost use Rattle.upi_words.specs.Prelude.{Text};
ghost use Rattle.settlement.specs.calls.Lists.{list_at, item_if};

use indexmap::IndexMap;
use std::alloc::Global;
use upi_base::{BankCode, Item, NoMemory};

/// The items of each bank that has one.
pub(crate) type Lists = IndexMap<BankCode, Vec<Item>>;

/// Adds an item at the end of a bank's list.
pub(crate) fn add(
    alloc: Global,
    lists: &mut Lists,
    bank: &BankCode,
    item: Item,
) -> Result<(), NoMemory>
    ensures { OnOk result ((b : Text) → list_at lists.new b ≡ list_at lists.old b ++ item_if (bytes_eq bank.now b) item) }
{
    match lists.get_mut(bank) {
        Some(list) => {
            list.push(item)?;
        }
        None => {
            let mut list = Vec::new(alloc);
            list.push(item)?;
            lists.insert(bank.copy(), list)?;
        }
    }
    Ok(())
}

/// The same items.
pub(crate) fn copies(alloc: Global, items: &[Item]) -> Result<Vec<Item>, NoMemory>
    ensures { IfOk result (λ v. v.items ≡ items.now) }
{
    let mut out = Vec::new(alloc);
    for item in items {
        out.push(Item {
            txn: item.txn.copy(),
            side: item.side,
            amount: item.amount,
        })?;
    }
    Ok(out)
}

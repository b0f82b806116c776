//! The sections of a report.
ghost use Rattle.std.specs.Prelude.{◌≡◌, OnOk, map};
ghost use Rattle.std.specs.List.{flat_map};
ghost use Rattle.recon_report.specs.calls.Pages.{Adds, IsAtLine};
ghost use Rattle.recon_report.specs.Report as Report;

use crate::lines;
use crate::page::Page;
use settlement::Settlement;
use upi_base::{AccountRef, BankCode, Item, NoMemory, Recon, TxnRow};

/// Adds the outcomes.
pub(crate) fn outcomes(rows: &[TxnRow], page: &mut Page) -> Result<(), NoMemory>
    requires { IsAtLine page.old.writer }
    ensures { OnOk result (Adds page.old.writer page.new.writer (flat_map Report.outcome_line rows.now)) }
{
    for row in rows {
        lines::outcome_line(row, page)?;
    }
    Ok(())
}

// Adds the items of a bank.
fn items(bank: &BankCode, items: &[Item], page: &mut Page) -> Result<(), NoMemory>
    requires { IsAtLine page.old.writer }
    ensures { OnOk result (Adds page.old.writer page.new.writer (map (Report.settle_line bank.now) items.now)) }
{
    for item in items {
        lines::settle_line(bank, item, page)?;
    }
    Ok(())
}

// Adds the settlement list of a bank.
fn settled_at(settlement: &Settlement, bank: &BankCode, page: &mut Page) -> Result<(), NoMemory>
    requires { IsAtLine page.old.writer }
    ensures { OnOk result (Adds page.old.writer page.new.writer (Report.settle_lines settlement.now bank.now)) }
{
    let list = settlement.items(bank)?;
    items(bank, &list, page)
}

/// Adds the settlement lists.
pub(crate) fn settled(
    settlement: &Settlement,
    banks: &[BankCode],
    page: &mut Page,
) -> Result<(), NoMemory>
    requires { IsAtLine page.old.writer }
    ensures { OnOk result (Adds page.old.writer page.new.writer (flat_map (Report.settle_lines settlement.now) banks.now)) }
{
    for bank in banks {
        settled_at(settlement, bank, page)?;
    }
    Ok(())
}

/// Adds the nets.
pub(crate) fn nets(
    settlement: &Settlement,
    banks: &[BankCode],
    page: &mut Page,
) -> Result<(), NoMemory>
    requires { IsAtLine page.old.writer }
    ensures { OnOk result (Adds page.old.writer page.new.writer (map (Report.net_line settlement.now) banks.now)) }
{
    for bank in banks {
        lines::net_line(settlement, bank, page)?;
    }
    Ok(())
}

/// Adds reconciliation items.
pub(crate) fn reconciled(items: &[Recon], page: &mut Page) -> Result<(), NoMemory>
    requires { IsAtLine page.old.writer }
    ensures { OnOk result (Adds page.old.writer page.new.writer (map Report.recon_line items.now)) }
{
    for item in items {
        lines::recon_line(item, page)?;
    }
    Ok(())
}

/// Adds balances.
pub(crate) fn balances(held: &[(AccountRef, u64)], page: &mut Page) -> Result<(), NoMemory>
    requires { IsAtLine page.old.writer }
    ensures { OnOk result (Adds page.old.writer page.new.writer (map Report.balance_line held.now)) }
{
    for one in held {
        lines::balance_line(one, page)?;
    }
    Ok(())
}

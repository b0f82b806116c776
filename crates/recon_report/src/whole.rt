//! The whole report.
ghost use Rattle.std.specs.Prelude.{◌≡◌, ◌++◌, ◌∷◌, [], OnOk, IfOk};
ghost use Rattle.recon_report.specs.calls.Pages.{Adds, IsAtLine};
ghost use Rattle.recon_report.specs.Report as Report;
ghost use Rattle.upi_model.specs.Settlement as Spec;

use crate::page::Page;
use crate::{lines, sections};
use settlement::Settlement;
use std::alloc::Global;
use upi_base::{AccountRef, BankCode, NoMemory, SetupLine, TxnRow};
use vpa_directory::Directory;

// Adds the bank that a line gives, if it gives one.
fn push_bank(line: &SetupLine, banks: &mut Vec<BankCode>) -> Result<(), NoMemory>
    ensures { OnOk result (banks.new.items ≡ banks.old.items ++ Spec.banks (line.now ∷ [])) }
{
    match line {
        SetupLine::Bank(bank) => {
            banks.push(bank.copy())?;
            Ok(())
        }
        _ => Ok(()),
    }
}

// The banks of a setup, in its order.
fn banks(alloc: Global, setup: &[SetupLine]) -> Result<Vec<BankCode>, NoMemory>
    ensures { IfOk result (λ banks. banks.items ≡ Spec.banks setup.now) }
{
    let mut banks = Vec::new(alloc);
    for line in setup {
        push_bank(line, &mut banks)?;
    }
    Ok(banks)
}

// Adds the whole report.
fn write(
    banks: &[BankCode],
    settlement: &Settlement,
    rows: &[TxnRow],
    balances: &[(AccountRef, u64)],
    flight: u128,
    page: &mut Page,
) -> Result<(), NoMemory>
    requires at_line { IsAtLine page.old.writer }
    requires same { settlement.now ≡ rows.now }
    ensures { OnOk result (Adds page.old.writer page.new.writer (Report.report_lines banks.now rows.now balances.now flight)) }
{
    let items = settlement.recon()?;
    page.header()?;
    sections::outcomes(rows, page)?;
    sections::settled(settlement, banks, page)?;
    sections::nets(settlement, banks, page)?;
    sections::reconciled(&items, page)?;
    sections::balances(balances, page)?;
    lines::flight_line(flight, page)?;
    Ok(())
}

/// The report of a closed history, as the bytes of its lines.
///
/// It has the banks of this directory's setup, in its order. `rows` are the transactions, in opening order;
/// `balances` are the accounts with what they hold in paise, in setup order; `flight` is the money
/// in flight, in paise.
///
/// Each line has six fields (`row,id,bank,detail,amount,code`, which are also the first line),
/// amounts with two decimals, and a line feed at its end: an `OUTCOME` for each transaction that has
/// one; `SETTLE`s by bank, `PAID` before `RECEIVED`; a `NET` for each bank; `RECON`s, at the payee's
/// bank; a `BALANCE` for each account; and `FLIGHT`. It fails only for want of memory.
#[tactic(auto, unfolding(crate::specs::Report::report_of))]
pub fn report(
    alloc: Global,
    directory: &Directory,
    rows: &[TxnRow],
    balances: &[(AccountRef, u64)],
    flight: u128,
) -> Result<Vec<u8>, NoMemory>
    ensures { IfOk result (λ text. text.items ≡ Report.report_of (Spec.banks directory.now.lines) rows.now balances.now flight) }
{
    let banks = banks(alloc, directory.setup().lines.items())?;
    let settlement = Settlement::of(alloc, rows)?;
    let mut page = Page::new(alloc);
    write(&banks, &settlement, rows, balances, flight, &mut page)?;
    page.finish()
}

//! The lines of a report.
ghost use Rattle.std.specs.Prelude.{◌≡◌, ◌∷◌, [], OnOk};
ghost use Rattle.recon_report.specs.calls.Pages.{Adds, IsAtLine};
ghost use Rattle.recon_report.specs.Report as Report;

use crate::page::{Amount, Page};
use settlement::Settlement;
use upi_base::{
    AccountRef, BankCode, Item, NoMemory, Outcome, Recon, TxnRow, code_word, outcome_word,
    side_word,
};

// The code of a failure; empty for the other outcomes.
fn outcome_code(outcome: Outcome) -> &'static [u8]
    ensures { result.now ≡ Report.outcome_code outcome }
{
    match outcome {
        Outcome::Success => b"",
        Outcome::Failure(code) => code_word(code),
        Outcome::Deemed => b"",
    }
}

/// Adds the line of a transaction's outcome, if it has one.
pub(crate) fn outcome_line(row: &TxnRow, page: &mut Page) -> Result<(), NoMemory>
    requires { IsAtLine page.old.writer }
    ensures { OnOk result (Adds page.old.writer page.new.writer (Report.outcome_line row.now)) }
{
    match row.outcome {
        None => Ok(()),
        Some(outcome) => page.line(
            b"OUTCOME",
            row.txn.bytes(),
            b"",
            outcome_word(outcome),
            Amount::Paise(row.amount),
            outcome_code(outcome),
        ),
    }
}

/// Adds the line of an item of a bank's settlement list.
pub(crate) fn settle_line(bank: &BankCode, item: &Item, page: &mut Page) -> Result<(), NoMemory>
    requires { IsAtLine page.old.writer }
    ensures { OnOk result (Adds page.old.writer page.new.writer (Report.settle_line bank.now item.now ∷ [])) }
{
    page.line(
        b"SETTLE",
        item.txn.bytes(),
        bank.bytes(),
        side_word(item.side),
        Amount::Paise(item.amount),
        b"",
    )
}

/// Adds the line of a bank's net.
pub(crate) fn net_line(
    settlement: &Settlement,
    bank: &BankCode,
    page: &mut Page,
) -> Result<(), NoMemory>
    requires { IsAtLine page.old.writer }
    ensures { OnOk result (Adds page.old.writer page.new.writer (Report.net_line settlement.now bank.now ∷ [])) }
{
    page.line(
        b"NET",
        b"",
        bank.bytes(),
        b"",
        Amount::Net(settlement.net(bank)),
        b"",
    )
}

/// Adds the line of a reconciliation item.
pub(crate) fn recon_line(item: &Recon, page: &mut Page) -> Result<(), NoMemory>
    requires { IsAtLine page.old.writer }
    ensures { OnOk result (Adds page.old.writer page.new.writer (Report.recon_line item.now ∷ [])) }
{
    page.line(
        b"RECON",
        item.txn.bytes(),
        item.bank.bytes(),
        b"",
        Amount::Paise(item.amount),
        b"",
    )
}

/// Adds the line of an account's balance, in paise.
pub(crate) fn balance_line(held: &(AccountRef, u64), page: &mut Page) -> Result<(), NoMemory>
    requires { IsAtLine page.old.writer }
    ensures { OnOk result (Adds page.old.writer page.new.writer (Report.balance_line held.now ∷ [])) }
{
    page.line(
        b"BALANCE",
        held.0.num.bytes(),
        held.0.bank.bytes(),
        b"",
        Amount::Total(u128::from(held.1)),
        b"",
    )
}

/// Adds the line of the money in flight, in paise.
pub(crate) fn flight_line(flight: u128, page: &mut Page) -> Result<(), NoMemory>
    requires { IsAtLine page.old.writer }
    ensures { OnOk result (Adds page.old.writer page.new.writer (Report.flight_line flight ∷ [])) }
{
    page.line(b"FLIGHT", b"", b"", b"", Amount::Total(flight), b"")
}

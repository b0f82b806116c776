//! What a switch says of its history. Nothing here searches it.
use crate::switch::Core;
use entry_log::EntryView;
use upi_base::{AccountRef, NoMemory, Outcome, Sent, TxnId, TxnRow};
use vpa_directory::Directory;

impl Core {
    ghost use Rattle.std.specs.Prelude.{◌≡◌, IfOk, length, option_map};
    ghost use Rattle.std.specs.Option.{option_copied};
    ghost use Rattle.upi_model.specs.History;
    ghost use Rattle.upi_model.specs.DueList;
    ghost use Rattle.upi_model.specs.Outcomes;
    ghost use Rattle.upi_model.specs.Postings;
    ghost use Rattle.upi_model.specs.Settlement;
    ghost use Rattle.upi_base.specs.Setup.{accounts};
    ghost use Rattle.entry_log.specs.Views.{shown};
    ghost use Rattle.switch_core.specs.Held;
    ghost use Rattle.switch_core.specs.Calls;

    /// The setup, with its tables.
    pub fn directory(&self) -> &Directory
        ensures { result.now.lines ≡ self.now.setup }
    {
        self.tables.directory()
    }

    /// How many entries there are.
    pub fn len(&self) -> u64
        ensures { result ≡ length self.now.history }
    {
        self.log.len()
    }

    /// How many messages were sent.
    pub fn sent_count(&self) -> u64
        ensures { result ≡ History.sent_count self.now.history }
    {
        self.log.sent_count()
    }

    /// Whether the switch was closed.
    pub fn is_closed(&self) -> bool
        ensures { result ≡ History.is_closed self.now.history }
    {
        self.tables.is_closed()
    }

    /// The entry at a place, counted from 1; `None` exactly where there is none. It borrows what the
    /// switch keeps, and takes no memory.
    pub fn entry(&self, k: u64) -> Option<EntryView<'_>>
        ensures { option_map shown result ≡ Calls.entry_at self.now.history k }
    {
        self.log.entry(k)
    }

    /// The message of a number, counted from 1; `None` exactly where it wasn't sent.
    pub fn message(&self, n: u64) -> Option<&Sent>
        ensures { option_copied result ≡ History.message_at self.now.history n }
    {
        self.log.message(n)
    }

    /// The outcome of a transaction, if it has one.
    pub fn outcome(&self, txn: &TxnId) -> Option<Outcome>
        ensures { result ≡ Outcomes.outcome_of self.now.setup txn.now self.now.history }
    {
        self.tables.outcome(txn)
    }

    /// The money in flight, in paise: what was debited and neither credited nor returned.
    pub fn flight(&self) -> u128
        ensures { result ≡ Postings.flight self.now.setup self.now.history }
    {
        self.tables.flight()
    }

    /// The transactions whose due moment isn't after this one, with their due moments: by these,
    /// then by the bytes of their names.
    pub fn due(&self, now: u64) -> Result<Vec<(u64, TxnId)>, NoMemory>
        ensures { IfOk result (λ v. v.items ≡ DueList.due_list self.now.setup self.now.history now) }
    {
        let due = self.tables.due(now)?;
        Ok(due)
    }

    /// The transactions as settlement and the report see them, in opening order.
    pub fn rows(&self) -> Result<Vec<TxnRow>, NoMemory>
        ensures { IfOk result (λ v. v.items ≡ Settlement.txn_rows self.now.setup self.now.history) }
    {
        let rows = self.tables.rows()?;
        Ok(rows)
    }

    /// What an account holds, in paise; `None` exactly where the setup has no such account.
    pub fn balance(&self, ac: &AccountRef) -> Option<u64>
        ensures { result ≡ Held.balance_at self.now.setup self.now.history ac.now }
    {
        self.tables.balance(ac)
    }

    /// The accounts and what they hold, in setup order.
    pub fn balances(&self) -> Result<Vec<(AccountRef, u64)>, NoMemory>
        ensures { IfOk result (λ v. v.items ≡ Held.held_by self.now.setup self.now.history (accounts self.now.setup)) }
    {
        let all = self.tables.balances()?;
        Ok(all)
    }
}

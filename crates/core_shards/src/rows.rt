//! The rows of the closing report.
ghost use Rattle.std.specs.Prelude.{◌≡◌, Some, IfOk, OnOk, slice_get, option_map};
ghost use Rattle.upi_base.specs.Lists.{joined};
ghost use Rattle.upi_words.specs.Prelude.{History, Opening as AnOpening, opened, opening};
ghost use Rattle.upi_model.specs.Postings.{is_posted};
ghost use Rattle.upi_model.specs.Settlement.{txn_row, txn_rows};
ghost use Rattle.core_shards.specs.Tables.{StandsAll};

use crate::tables::CoreShards;
use upi_base::{Answer, Leg, NoMemory, PayReq, TxnId, TxnRow};

// Whether a leg was answered that it moved.
fn was_posted(answer: Option<Answer>) -> bool
    ensures { result ≡ is_posted answer }
{
    match answer {
        Some(Answer::Posted) => true,
        Some(Answer::Declined(_code)) => false,
        None => false,
    }
}

impl CoreShards {
    // A transaction of these terms as the report sees it, where its accounts are in the setup.
    fn row_of(&self, terms: &PayReq) -> Option<TxnRow>
        ensures { (h : History) (o : AnOpening) → StandsAll h self.now → opening self.now.lines terms.now.txn h ≡ Some o → o.terms ≡ terms.now → result ≡ Some (txn_row self.now.lines h o) }
    {
        let payer = self.dir.find(&terms.payer)?;
        let payee = self.dir.find(&terms.payee)?;
        let credit = self.banks.answered(payee, &terms.txn, Leg::Credit);
        Some(TxnRow {
            txn: terms.txn.copy(),
            payer_bank: payer.bank.copy(),
            payee_bank: payee.bank.copy(),
            amount: terms.amount,
            outcome: self.outcome(&terms.txn),
            credit_moved: was_posted(credit),
        })
    }

    // The row of a transaction, if it was opened.
    fn row_named(&self, txn: &TxnId) -> Option<TxnRow>
        ensures { (h : History) (o : AnOpening) → StandsAll h self.now → opening self.now.lines txn.now h ≡ Some o → result ≡ Some (txn_row self.now.lines h o) }
    {
        let row = self.txns.find(txn)?;
        self.row_of(&row.opening().terms)
    }

    // The row of the transaction that opened at a place, the first at 0, if there are so many.
    fn row_at(&self, place: usize) -> Option<TxnRow>
        ensures { (h : History) → StandsAll h self.now → result ≡ option_map (txn_row self.now.lines h) (slice_get (opened self.now.lines h) place) }
    {
        let txn = self.opened.get(place)?;
        self.row_named(txn)
    }

    // Appends the row of the transaction that opened at a place, if there is one.
    fn add_row(&self, place: usize, out: &mut Vec<TxnRow>) -> Result<(), NoMemory>
        ensures { OnOk result ((h : History) → StandsAll h self.now → out.new.items ≡ joined out.old.items (option_map (txn_row self.now.lines h) (slice_get (opened self.now.lines h) place))) }
    {
        match self.row_at(place) {
            Some(row) => {
                out.push(row)?;
                Ok(())
            }
            None => Ok(()),
        }
    }

    /// The transactions as settlement and the report see them, in the order in which they opened. It
    /// fails only for want of memory.
    pub fn rows(&self) -> Result<Vec<TxnRow>, NoMemory>
        ensures { IfOk result (λ v. (h : History) → StandsAll h self.now → v.items ≡ txn_rows self.now.lines h) }
    {
        let mut out = Vec::new(self.alloc);
        for place in 0..self.opened.len() {
            self.add_row(place, &mut out)?;
        }
        Ok(out)
    }
}

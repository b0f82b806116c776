//! What all accounts have.
ghost use Rattle.std.specs.Prelude.{◌≡◌, ◌++◌, map, option_to_list, IfOk, OnOk};
ghost use Rattle.std.specs.List.{AllByRecursion};
ghost use Rattle.upi_base.specs.Setup.{IsNamed, accounts, line_accounts};
ghost use Rattle.upi_words.specs.Prelude.{History};
ghost use Rattle.core_shards.specs.Tables.{StandsAll, with_balance};

use crate::tables::CoreShards;
use upi_base::{AccountRef, NoMemory, SetupLine};

impl CoreShards {
    // The account of a line with what it has; nothing where the line gives none.
    fn line_balance(&self, line: &SetupLine) -> Option<(AccountRef, u64)>
        ensures { (h : History) → StandsAll h self.now → AllByRecursion (IsNamed self.now.lines) (line_accounts line.now) → option_to_list result ≡ map (with_balance self.now.lines h) (line_accounts line.now) }
    {
        match line {
            SetupLine::Account {
                ac,
                opening: _opening,
                no_debit: _no_debit,
                no_credit: _no_credit,
            } => match self.balance(ac) {
                Some(sum) => Some((ac.copy(), sum)),
                None => None,
            },
            _ => None,
        }
    }

    // Appends the account of a line with what it has, if the line gives one.
    fn add_balance(
        &self,
        line: &SetupLine,
        out: &mut Vec<(AccountRef, u64)>,
    ) -> Result<(), NoMemory>
        ensures { OnOk result ((h : History) → StandsAll h self.now → AllByRecursion (IsNamed self.now.lines) (line_accounts line.now) → out.new.items ≡ out.old.items ++ map (with_balance self.now.lines h) (line_accounts line.now)) }
    {
        match self.line_balance(line) {
            Some(held) => {
                out.push(held)?;
                Ok(())
            }
            None => Ok(()),
        }
    }

    /// The accounts and what each has in paise, in setup order. It fails only for want of memory.
    pub fn balances(&self) -> Result<Vec<(AccountRef, u64)>, NoMemory>
        ensures { IfOk result (λ v. (h : History) → StandsAll h self.now → v.items ≡ map (with_balance self.now.lines h) (accounts self.now.lines)) }
    {
        let mut all = Vec::new(self.alloc);
        let lines = self.dir.setup().lines.items();
        for at in 0..lines.len() {
            self.add_balance(&lines[at], &mut all)?;
        }
        Ok(all)
    }
}

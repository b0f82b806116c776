//! What the accounts of a setup hold, and all that a history comes to.
ghost use Rattle.std.specs.Prelude.{◌≡◌, IfOk, option_to_list};
ghost use Rattle.upi_base.specs.Setup.{accounts, line_accounts};
ghost use Rattle.upi_model.specs.Postings;
ghost use Rattle.upi_replay.specs.Comes;

use crate::switch::Replay;
use std::alloc::Global;
use upi_base::{Account, AccountRef, NoMemory, SetupLine, TxnRow};

/// What a history comes to.
#[derive(Drop)]
pub struct Totals {
    /// The transactions as settlement and the report see them, in opening order.
    pub rows: Vec<TxnRow>,
    /// The accounts and what each holds in paise, in setup order.
    pub balances: Vec<(AccountRef, u64)>,
    /// The money in flight, in paise.
    pub flight: u128,
}

/// The account that a line gives, if it gives one.
fn account_in(line: &SetupLine) -> Option<Account>
    ensures { option_to_list result ≡ line_accounts line.now }
{
    match line {
        SetupLine::Account {
            ac,
            opening,
            no_debit,
            no_credit,
        } => Some(Account {
            ac: ac.copy(),
            opening: *opening,
            no_debit: *no_debit,
            no_credit: *no_credit,
        }),
        SetupLine::Bank(_code) => None,
        SetupLine::Psp(_name) => None,
        SetupLine::Address {
            addr: _addr,
            ac: _ac,
            policy: _policy,
        } => None,
    }
}

/// What the accounts hold, in setup order.
fn all_held(alloc: Global, replay: &Replay) -> Result<Vec<(AccountRef, u64)>, NoMemory>
    ensures { IfOk result (λ v. v.items ≡ Comes.held_by replay.now.setup replay.now.history (accounts replay.now.setup)) }
{
    let mut all = Vec::new(alloc);
    let lines = replay.lines();
    for line in lines {
        if let Some(account) = account_in(line) {
            let sum = replay.held(&account);
            all.push((account.ac, sum))?;
        }
    }
    Ok(all)
}

impl Replay {
    /// What an account holds, in paise.
    pub fn held(&self, account: &Account) -> u64
        ensures { result ≡ Postings.balance self.now.setup account.now self.now.history }
    {
        let _opening = account.opening.get();
        self.balance(account) as u64
    }

    /// The accounts and what each holds in paise, in setup order. It fails only for want of memory.
    pub fn balances(&self) -> Result<Vec<(AccountRef, u64)>, NoMemory>
        ensures { IfOk result (λ v. v.items ≡ Comes.balances self.now.setup self.now.history) }
    {
        let all = all_held(self.alloc, self)?;
        Ok(all)
    }
}

//! The sixteen shards: made, planned and committed.
ghost use Rattle.std.specs.Prelude.{◌≡◌, ◌+◌, [], length, IfOk, OnOk};
ghost use Rattle.std.specs.List.{AllByRecursion};
ghost use Rattle.upi_words.specs.Prelude.{Setup};
ghost use Rattle.txn_shards.specs.Txns.{IsBare, IsPlannedIn, StandTxns, entries_in, rows_all, rows_with};

use crate::step::Step;
use std::alloc::Global;
use std::hash::RandomState;
use std::marker::Model;
use txn_shard::TxnShard;
use upi_base::NoMemory;

/// The sixteen shards of transactions. Contracts see the list of them.
#[derive(Drop)]
pub struct TxnShards {
    pub(crate) alloc: Global,
    pub(crate) shards: Vec<TxnShard>,
}

impl Model for TxnShards {
    ghost use Rattle.std.specs.Prelude.{List, ◌≡◌, length};
    ghost use Rattle.txn_shard.specs.Rows.{Shard};

    ghost Value = { List Shard };

    ghost view = { λ t. t.shards.items };

    ghost invariant = { λ t. length t.shards.items ≡ 16 };
}

// Appends so many shards with no transaction.
fn fill(
    alloc: Global,
    hashes: RandomState,
    shards: &mut Vec<TxnShard>,
    count: usize,
) -> Result<(), NoMemory>
    requires { AllByRecursion IsBare shards.old.items }
    ensures count { OnOk result (length shards.new.items ≡ length shards.old.items + count) }
    ensures bare { AllByRecursion IsBare shards.new.items }
{
    for _made in 0..count {
        shards.push(TxnShard::new(alloc, hashes, hashes))?;
    }
    Ok(())
}

impl TxnShards {
    /// Sixteen shards with no transaction, which stand for no entry of every setup. Names of transactions are hashed with `hashes`, so whoever
    /// chooses them can't choose them to collide. It fails only for want of memory.
    pub fn new(alloc: Global, hashes: RandomState) -> Result<TxnShards, NoMemory>
        ensures { IfOk result (λ t. (S : Setup) → StandTxns S (entries_in []) (rows_all t)) }
    {
        let mut shards = Vec::new(alloc);
        fill(alloc, hashes, &mut shards, 16)?;
        Ok(TxnShards { alloc, shards })
    }

    /// Commits what was planned here. It takes no memory, and always succeeds.
    pub fn commit(&mut self, step: Step)
        requires { IsPlannedIn self.old step }
        ensures { rows_all self.new ≡ rows_with (rows_all self.old) step.place step.plan.change }
    {
        let place = step.place;
        let shard = &mut self.shards[place];
        shard.commit(step.step);
    }
}

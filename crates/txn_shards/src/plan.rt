//! Plans: each call by the shard that owns it.
ghost use Rattle.std.specs.Prelude.{◌≡◌, ℕ, Some, None, IfOk};
ghost use Rattle.upi_words.specs.Prelude.{Call, Setup};
ghost use Rattle.upi_model.specs.Accounts.{order_of};
ghost use Rattle.txn_shards.specs.Txns.{IsPlannedIn, MakesIn, rows_all};

use crate::places::{place_of_input, txn_of};
use crate::step::Step;
use crate::txns::TxnShards;
use upi_base::{Input, Moment, NoMemory, PspName, Sent, TxnId, txn_shard};
use vpa_directory::Directory;

impl TxnShards {
    /// Plans what a PSP says. It takes all memory of the change, and changes nothing but room.
    pub fn plan_heard(
        &mut self,
        dir: &Directory,
        psp: &PspName,
        input: &Input,
        now: Moment,
    ) -> Result<Step, NoMemory>
        ensures planned { IfOk result (λ x. IsPlannedIn self.new x) }
        ensures makes { IfOk result (λ x. MakesIn dir.now.lines (rows_all self.old) (Call.Hear psp.now input.now) None now x) }
        ensures rows { rows_all self.new ≡ rows_all self.old }
    {
        let place = place_of_input(input);
        let shard = &mut self.shards[place];
        let step = shard.plan_heard(dir, psp, input, now)?;
        Ok(Step { place, step })
    }

    /// Plans the delivery of a message to a PSP or to the switch. It takes all memory of the change,
    /// and changes nothing but room. Condition: it is no order to a bank.
    pub fn plan_delivered(
        &mut self,
        dir: &Directory,
        message: &Sent,
        now: Moment,
    ) -> Result<Step, NoMemory>
        requires { order_of message.now.body ≡ None }
        ensures planned { IfOk result (λ x. IsPlannedIn self.new x) }
        ensures makes { IfOk result (λ x. (n : ℕ) → MakesIn dir.now.lines (rows_all self.old) (Call.Deliver n) (Some message.now) now x) }
        ensures rows { rows_all self.new ≡ rows_all self.old }
    {
        let place = txn_shard(txn_of(&message.body)) as usize;
        let shard = &mut self.shards[place];
        let step = shard.plan_delivered(dir, message, now)?;
        Ok(Step { place, step })
    }

    /// Plans that a message is lost. It takes no memory.
    pub fn plan_lost(&self, message: &Sent) -> Step
        ensures planned { IsPlannedIn self.now result }
        ensures makes { (S : Setup) (n now : ℕ) → MakesIn S (rows_all self.now) (Call.Lose n) (Some message.now) now result }
    {
        let place = txn_shard(txn_of(&message.body)) as usize;
        let shard = &self.shards[place];
        let step = shard.plan_lost();
        Step { place, step }
    }

    /// Plans a look whether a transaction is due. It takes all memory of the change, and changes
    /// nothing but room.
    pub fn plan_late(&mut self, dir: &Directory, txn: &TxnId, now: Moment) -> Result<Step, NoMemory>
        ensures planned { IfOk result (λ x. IsPlannedIn self.new x) }
        ensures makes { IfOk result (λ x. MakesIn dir.now.lines (rows_all self.old) (Call.Late txn.now) None now x) }
        ensures rows { rows_all self.new ≡ rows_all self.old }
    {
        let place = txn_shard(txn) as usize;
        let shard = &mut self.shards[place];
        let step = shard.plan_late(dir, txn, now)?;
        Ok(Step { place, step })
    }
}

//! Commits: they take no memory.
ghost use Rattle.std.specs.Prelude.{◌≡◌, ◌∷◌, ◌<◌, false};
ghost use Rattle.upi_words.specs.Prelude.{Entry, History, Legal, is_closed};
ghost use Rattle.upi_model.specs.Owners.{message_of};
ghost use Rattle.account_shard.specs.Shard.{Plan as ALeg};
ghost use Rattle.bank_shards.specs.Banks.{IsPlannedIn as IsBankStep};
ghost use Rattle.txn_shards.specs.Txns.{IsPlannedIn as IsTxnStep, MakesIn, Placed, rows_all};
ghost use Rattle.core_shards.specs.Steps.{IsLegOf, IsStep, IsStepOf, without_sent};
ghost use Rattle.core_shards.specs.Tables.{StandsAll};
ghost use Rattle.core_shards.specs.declared.step.{Step.Step as AStep};

use crate::money::flight_after;
use crate::step::Step;
use crate::tables::CoreShards;
use account_shard::Step as LegStep;
use txn_shards::Step as TxnStep;

impl CoreShards {
    // Commits what a shard of transactions planned.
    fn commit_txn(&mut self, step: TxnStep)
        requires planned { IsTxnStep self.old.txns step }
        requires room { 0 < self.old.opened.spare }
        ensures lines { self.new.lines ≡ self.old.lines }
        ensures stands { (h : History) (e : Entry) (x : Placed) → x.place ≡ step.place → x.plan.change ≡ step.plan.change → StandsAll h self.old → is_closed (e ∷ h) ≡ false → Legal self.old.lines (e ∷ h)
            → MakesIn self.old.lines (rows_all self.old.txns) e.call (message_of h e.call) e.at x → StandsAll (e ∷ h) self.new }
    {
        self.opened.add(step.opens());
        self.txns.commit(step);
    }

    // Commits what a shard of accounts planned.
    fn commit_leg(&mut self, step: LegStep)
        requires { IsBankStep self.old.banks step }
        ensures lines { self.new.lines ≡ self.old.lines }
        ensures stands { (h : History) (e : Entry) (x : ALeg) → x.order ≡ step.order → StandsAll h self.old → is_closed (e ∷ h) ≡ false → Legal self.old.lines (e ∷ h) → IsLegOf e.call (message_of h e.call) x → StandsAll (e ∷ h) self.new }
    {
        self.flight = flight_after(self.flight, step.moved());
        self.banks.commit(step);
    }

    /// Commits what was planned here, with or without its messages. It takes no memory, and always
    /// succeeds: the tables then stand for the history with the call's entry.
    pub fn commit(&mut self, step: Step)
        requires { IsStep self.old step }
        ensures lines { self.new.lines ≡ self.old.lines }
        ensures stands { (h : History) (e : Entry) (x : AStep) → without_sent x ≡ without_sent step → StandsAll h self.old → is_closed (e ∷ h) ≡ false → Legal self.old.lines (e ∷ h) → IsStepOf self.old e.call (message_of h e.call) e.at x
            → StandsAll (e ∷ h) self.new }
    {
        match step {
            Step::Txn(step) => self.commit_txn(step),
            Step::Leg(step) => self.commit_leg(step),
        }
    }
}

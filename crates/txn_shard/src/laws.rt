//! What a shard of transactions has to do with legal histories, and what its readers say of them. The
//! function has an empty body, and its contract is the law.
ghost use Rattle.txn_shard.specs.ShardLaws;

/// What was planned of a call after a legal history is what the definitions reply and send; with its
/// entry the shard stands for the longer history, and an entry of another owner changes nothing.
/// Outcomes, due moments and what a Close makes arrive are those of the entries.
#[tactic(auto, using(crate::proofs::Gathered::shard_laws))]
pub fn shard_laws()
    ensures { ShardLaws.ShardLaws }
{}

//! What a shard can post of a legal history. The function has an empty body, and its contract is
//! the law.
ghost use Rattle.account_shard.specs.ShardLaws;

/// Each order that a legal history has sent to an account of the shard can be posted there; lines of
/// the setup that give it no account leave it as it is.
#[tactic(auto, using(crate::proofs::Gathered::shard_laws))]
pub fn shard_laws()
    ensures { ShardLaws.ShardLaws }
{}

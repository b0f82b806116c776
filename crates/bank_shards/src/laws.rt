//! What the sixteen shards have to do with histories. The function has an empty body, and its
//! contract is the law.
ghost use Rattle.bank_shards.specs.BankLaws;

/// Which orders each shard has had in a history, entry by entry; that each order which a legal
/// history has sent, or a Close makes arrive, can be posted; and what money is in flight.
#[tactic(auto, using(crate::proofs::Gathered::bank_laws))]
pub fn bank_laws()
    ensures { BankLaws.BankLaws }
{}

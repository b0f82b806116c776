//! What the shards have to do with histories. The function has an empty body, and its contract is the
//! law.
ghost use Rattle.core_shards.specs.CoreLaws;

/// A call that may come after a history without a Close can be planned, and an entry after a Close
/// leaves the tables as they are.
#[tactic(auto, using(crate::proofs::Gathered::core_laws))]
pub fn core_laws()
    ensures { CoreLaws.CoreLaws }
{}

//! Laws on machines, by a function with an empty body.
ghost use Rattle.txn_machine.specs.MachineLaws;

/// An event of which a machine doesn't hear, and every event after a Close, leave its transaction as
/// it stands, but that its outcome may be acknowledged. At every event one machine and one move
/// follow the rules, and no other.
#[tactic(auto, using(crate::proofs::Others::machine_laws))]
pub fn machine_laws()
    ensures { MachineLaws.MachineLaws }
{}

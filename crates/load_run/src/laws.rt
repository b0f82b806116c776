//! What holds of loads. This function does nothing: it promises laws.
ghost use Rattle.load_run.specs.Laws;

/// The lines of a load are played to its end: a script refuses none of them.
#[tactic(auto, using(crate::proofs::Loaded::load_laws))]
pub fn load_laws()
    ensures { Laws.LoadLaws }
{}

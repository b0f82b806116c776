//! Who makes a call never matters: a law of histories that differ in their callers alone.
#![tactic(auto)]

ghost use Rattle.caller_laws.specs.CallerLaws;

/// Histories that differ in nothing but their callers are legal together. After them the same calls
/// may come, with the same replies and messages; and they have the same transactions, balances and
/// money in flight.
#[tactic(auto, using(crate::proofs::Callers::caller_laws))]
pub fn callers_do_not_matter()
    ensures { CallerLaws.CallerLaws }
{}

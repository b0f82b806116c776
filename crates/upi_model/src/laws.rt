//! The structure of histories: laws, one record a subject. Each function has an empty body, and its
//! contract is the record.
ghost use Rattle.upi_model.specs.DueLaws;
ghost use Rattle.upi_model.specs.EntryLaws;
ghost use Rattle.upi_model.specs.Fronts;
ghost use Rattle.upi_model.specs.StandingLaws;
ghost use Rattle.upi_model.specs.Structure;

/// Places stay once they are found, each stands on those that must come before it, and an outcome is
/// the outcome for good.
#[tactic(auto, using(crate::proofs::Gathered::place_laws))]
pub fn place_laws()
    ensures { Structure.PlaceLaws }
{}

/// The openings of a history: one a name, at the first entry that opens it, within the limits.
#[tactic(auto, using(crate::proofs::Gathered::opening_laws))]
pub fn opening_laws()
    ensures { Structure.OpeningLaws }
{}

/// One entry more: what it adds to a transaction, that it is at most one place of it, and that it
/// leaves others as they were; after a Close it leaves all.
#[tactic(auto, using(crate::proofs::Gathered::step_laws))]
pub fn step_laws()
    ensures { Structure.StepLaws }
{}

/// Legal histories: their prefixes, their entries, and the two readings, latest first and latest
/// last, which are one.
#[tactic(auto, using(crate::proofs::Gathered::legal_laws))]
pub fn legal_laws()
    ensures { Structure.LegalLaws }
{}

/// How a transaction stands: from entry to entry, from event to event, and by a shard's own entries.
#[tactic(auto, using(crate::proofs::Gathered::standing_laws))]
pub fn standing_laws()
    ensures { StandingLaws.StandingLaws }
{}

/// The transactions that are due at a moment: in their order, each due, and none missing.
#[tactic(auto, using(crate::proofs::DueOrder::due_list_laws))]
pub fn due_list_laws()
    ensures { DueLaws.DueListLaws }
{}

/// Fronts of lists whose latest entry stands last, as beginnings of histories; what they keep.
#[tactic(auto, using(crate::proofs::Fronts::front_laws))]
pub fn front_laws()
    ensures { Fronts.FrontLaws }
{}

/// The entries that may come after a history are those that calls make.
#[tactic(auto, using(crate::proofs::MadeEntries::entry_laws))]
pub fn entry_laws()
    ensures { EntryLaws.EntryLaws }
{}

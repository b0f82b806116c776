//! What holds of verdicts. These functions do nothing: each promises a law.
ghost use Rattle.upi_audit.specs.Laws;

/// A verdict says yes exactly where the journal is right: it is that of a legal history that is closed,
/// and its report.
#[tactic(auto, using(crate::proofs::Exact::verdict_is_exact))]
pub fn verdict_is_exact()
    ensures { Laws.AuditIsExact }
{}

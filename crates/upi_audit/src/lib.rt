//! Journals, audited: whether a journal that anyone made is that of a legal history, with its report.
#![tactic(auto)]

pub mod audit;
mod closing;
mod judge;
pub mod laws;
mod written;
mod wrong;

pub use audit::Audit;
pub use upi_base::{AuditWhy, EngineFault, Verdict};
pub use written::write_verdict;

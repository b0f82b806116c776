//! What follows from the definitions of `upi_model`: laws of all histories, and of legal ones.
#![tactic(auto)]

pub mod laws;

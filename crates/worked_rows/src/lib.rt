//! Worked rows: whole histories, entry by entry, with what they come to, and how they are read. What
//! they expect was worked out from the rules by hand. It is a library for tests.
#![tactic(auto)]

pub mod edges;
pub mod journal;
pub mod rows;

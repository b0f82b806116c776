//! Loads, played to journals, and audited. It is a library of tests.
#![tactic(auto)]

#[cfg(test)]
mod loads;

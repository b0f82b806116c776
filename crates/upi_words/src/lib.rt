//! The types and words that definitions, contracts and proofs cite, passed on from one place, as
//! std's Prelude does. It has no code.
#![tactic(auto)]

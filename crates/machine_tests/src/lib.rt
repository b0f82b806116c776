//! Tests of the machines of PAY and COLLECT: tables of all that happens to them in each phase. It is
//! a library of tests.
#![tactic(auto)]

#[cfg(test)]
mod driven;
#[cfg(test)]
mod rows;
#[cfg(test)]
mod tests;

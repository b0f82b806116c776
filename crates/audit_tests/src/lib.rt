//! Journals and their verdicts: the output of each example, and one spoiled journal after the other.
//! It is a library of tests.
#![tactic(auto)]

#[cfg(test)]
mod examples;
#[cfg(test)]
mod spoiled;
#[cfg(test)]
mod verdicts;

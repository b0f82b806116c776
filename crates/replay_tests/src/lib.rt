//! Worked rows: whole histories, entry by entry, with what they come to. It is a library of tests.
#![tactic(auto)]

#[cfg(test)]
mod play;
#[cfg(test)]
mod tests;
#[cfg(test)]
mod versions;

//! The switch by tables, held against the plain program, and its limits. It is a library of tests.
#![tactic(auto)]

#[cfg(test)]
mod both;
#[cfg(test)]
mod ending;
#[cfg(test)]
mod limits;
#[cfg(test)]
mod mixes;
#[cfg(test)]
mod play;
#[cfg(test)]
mod scripts;
#[cfg(test)]
mod tests;

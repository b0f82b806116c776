//! Messages as JSON, by tables: every fault of every member, forms that are read, and what is
//! written. It is a library of tests.
#![tactic(auto)]

#[cfg(test)]
mod faults;
#[cfg(test)]
mod reading;
#[cfg(test)]
mod sending;
#[cfg(test)]
mod texts;
#[cfg(test)]
mod walk;
#[cfg(test)]
mod writing;

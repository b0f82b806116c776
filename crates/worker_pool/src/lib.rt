//! Workers on threads of their own, which run jobs from one queue, each job once.
#![tactic(auto)]

mod crew;
mod desk;
mod floor;
mod hand;
mod job;
mod pool;
mod worker;

pub use job::Job;
pub use pool::{Tally, drain};

#[cfg(test)]
mod tests;

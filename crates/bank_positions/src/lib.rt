//! What moved at each bank, added up by many threads without a lock.
#![tactic(auto)]

mod name;
mod position;
mod positions;
mod rule;
mod share;

pub use name::PositionsName;
pub use position::Position;
pub use positions::{Positions, PositionsBlank};
pub use share::Share;

#[cfg(test)]
mod tests;

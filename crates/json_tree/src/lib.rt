//! JSON by the places of its values in its own text: the values that `serde_json` gives, without its
//! copies.
#![tactic(auto)]

mod begin;
mod number;
mod place;
mod spots;

pub use begin::{Spot, Spots};
pub use place::places;
pub use spots::{is_object, list, member, next_item, only_member, root, text};

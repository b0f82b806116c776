//! What the switch means: definitions over a flat history, and the laws of their structure.
//!
//! `specs/` has the definitions, one file a group. The types of this crate are the words in which
//! they speak. `docs/DEFINITIONS.md` tells the whole model in words.
#![tactic(auto)]

pub mod event;
pub mod laws;
pub mod places;

pub use event::{AuthWord, Event, Said};
pub use places::{Decision, Kept, LegEnd, Opening, Order, Owner};

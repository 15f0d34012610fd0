//! The reclaims of a drive, which make room for values, over its journal, its values and its
//! blocks, in steps of at most one flash operation.
//!
//! The map is the same wherever a step is cut, also if the places of its values are new ones.
#![tactic(auto)]

mod laws;
mod step;

pub use laws::{behind_freeze, values_stay};
pub use step::reclaim_step;

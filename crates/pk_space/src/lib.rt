//! Namespaces: their live limits, and the live pages and keys of each.
//!
//! A drive has at most `MOST_SPACES` namespaces. Their limits are at least one page each and together no more than the limit of the
//! shape, so what is promised of the space of the flash is promised of them.
#![tactic(auto)]

mod in_use;
mod limits;

pub use in_use::Use;
pub use limits::{LIMITS_LIST_FROM, Limits, LimitsError};

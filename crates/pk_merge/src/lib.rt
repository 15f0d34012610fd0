//! A merge of two sorted lists of entries into a new run, the frozen write buffer or a run over the
//! run of the next level, made in steps of at most one flash operation.
//!
//! The output is the target overridden by the source, cut into full pages; only a merge into run 4
//! drops deleted keys.
#![tactic(auto)]

mod cursor;
mod gathered;
mod job;
mod laws;
mod merger;
mod next;
mod output;
mod source;
mod spares;

pub use job::MergeJob;
pub use laws::idle_again;
pub use source::Source;

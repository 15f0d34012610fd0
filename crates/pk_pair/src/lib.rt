//! Pairs of pages, of which both get the same bytes, the first one first. Wherever the programs of
//! a pair are cut, each of its pages holds these bytes or nothing. A pair is read by its first page
//! if that is Whole, and otherwise by its second.
#![tactic(auto)]

mod pages;
mod reading;
mod writing;

pub use pages::commit_page;
pub use reading::read_pair;
pub use writing::{write_first, write_pair, write_second};

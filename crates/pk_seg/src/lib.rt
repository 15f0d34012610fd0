//! Values and single pages on a board. What is written is what the reading of a flash accepts, and wherever a write is cut no
//! other page differs; what is read is what the pages hold, by an exact number of reads.
#![tactic(auto)]

mod pages;
mod values;

pub use pages::{read_page, write_page};
pub use values::{read_value, write_value};

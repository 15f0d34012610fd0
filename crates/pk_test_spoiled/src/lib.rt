//! Trials of flashes that are damaged byte by byte and page by page, with one namespace and with more. What such a flash holds is read
//! plainly, by no part of the program, which is a parameter as in `pk_test_scripts`.
#![tactic(auto)]

pub mod namespaces;
mod opened;
mod plain;
mod reading;
pub mod spoiled;

pub use opened::{Opened, Opens};

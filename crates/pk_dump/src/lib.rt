//! The content of a flash as text: every root, the epochs and the runs with their entries, the
//! blocks, and the page at which reading the flash fails, if it does. Of a damaged flash whatever
//! can be read is printed. The flash is read into memory first, by one read of each page, and
//! nothing else is done to it. What is printed of a page is what the definitions have for it; how
//! it is spelled is in no contract.
#![tactic(auto)]

mod block;
mod errors;
mod finding;
mod form;
mod held;
mod journal;
mod pages;
mod picture;
mod reading;
mod root;
mod run;
mod telling;
mod words;

pub use errors::DumpError;
pub use form::Form;
pub use telling::dump;

//! The two commands that touch no flash, over any board: a text script is assembled to entries and
//! values, and answer records are shown as lines of text. What is posted is a function of the input
//! alone, and after a fault a prefix of it; no page and no count of the flash changes. Memory is
//! taken once, before the first byte of the input.
#![tactic(auto)]

mod assembler;
mod end;
mod feed;
pub mod laws;
mod line;
mod over;
mod record;
mod shower;
mod sizes;

pub use assembler::Assembler;
pub use end::TextEnd;
pub use shower::Shower;

//! Lines of a text script: the entry and the bytes that a line gives, and the line that gives an entry and bytes.
#![tactic(auto)]

mod assemble;
mod form;
mod operands;
mod printed;
mod sizes;
mod words;
mod writer;

pub use assemble::{BadLine, assemble_line};
pub use form::Form;
pub use operands::Operands;
pub use printed::print;
pub use sizes::{MOST_LINE_BYTES, MOST_LINE_VALUE_BYTES};
pub use words::{bytes_word, entry_word, is_bytes_word, key, number};

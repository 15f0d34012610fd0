//! The program's one call: words and a board in, a status out.
//!
//! Every run returns and is safe, over every board. Each status other than 0 has its cause as a
//! clause of the call, and what a run of `serve` keeps at every cut is one too; `laws::sessions`
//! says what follows for any number of runs.
#![tactic(auto)]

mod asking;
pub mod laws;
mod making;
pub mod pair_laws;
mod pair_words;
mod pairing;
mod running;
mod serving;
mod spared;
mod spared_words;
mod status;
mod texts;
mod word;
mod words;

pub use pairing::run_pair;
pub use running::run;
pub use spared::run_spared;
pub use status::Status;

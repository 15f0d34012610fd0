//! Opening: what the flash holds is read part by part, by exact numbers of reads, up to the first
//! page that is wrong. A value or a run is accepted exactly if the reading of a flash finds it;
//! each refusal names the page that this reading names. The blocks that were found get their owners
//! in the pool. `scan` does all of it in one call.
#![tactic(auto)]

mod accept;
mod adopt;
mod contents;
mod epochs;
mod errors;
mod levels;
mod lists;
mod memory;
mod namespaces;
mod opening;
mod pages;
mod refused;
mod runs;
mod taken;
mod values;
mod visible;

pub use contents::Found;
pub use errors::{OpenError, PageError};
pub use opening::scan;
pub use runs::load_run;

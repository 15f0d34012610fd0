//! Reclaims: the live values of a block are copied to another one, one commit of the journal takes
//! their moves, and the block is freed, in steps of at most one flash operation. The map of the
//! flash is the same at every cut of each step.
#![tactic(auto)]

mod course;
mod job;
mod laws;
mod moves;
mod reclaimed;
mod victim;

pub use course::{Course, Phase};
pub use job::ReclaimJob;
pub use laws::{at_end, buffered, copied, cuts, in_mid_copy, lowers, next_value, steps};
pub use moves::Move;
pub use pk_live::OpenBlock;
pub use reclaimed::Reclaimed;

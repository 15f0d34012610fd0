//! Trials of any program on flashes made by hand: what merges, freezes and pinned levels do, and which pages each command reads; and the
//! worked session cut at every mark. `pk_test_program` runs them on the program.
#![tactic(auto)]

pub mod freezes;
pub mod held;
pub mod layered;
pub mod merges;
pub mod worked_cuts;

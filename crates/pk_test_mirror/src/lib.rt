//! Trials of a mirrored pair over boards in memory: the worked rows, the ends of a run, each call of either flash that fails, and each
//! cut of either flash, followed by a run over both. The crate has nothing but these tests.
#![tactic(auto)]

#[cfg(test)]
mod cuts;
#[cfg(test)]
mod ends;
#[cfg(test)]
mod failing;
#[cfg(test)]
mod pairs;
#[cfg(test)]
mod rows;

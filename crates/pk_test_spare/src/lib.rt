//! Trials of a drive with spare blocks over a board in memory: the worked rows, calls of the inner flash that fail, cuts of it, its
//! tables, and its trail. The crate has nothing but these tests.
#![tactic(auto)]

#[cfg(test)]
mod cuts;
#[cfg(test)]
mod failing;
#[cfg(test)]
mod pairs;
#[cfg(test)]
mod rows;
#[cfg(test)]
mod spared;
#[cfg(test)]
mod tables;
#[cfg(test)]
mod trail;

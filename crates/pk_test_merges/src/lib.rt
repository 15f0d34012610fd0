//! Tests of merges: one page over another, step by step, with a read that fails among them.
#![tactic(auto)]

#[cfg(test)]
mod begin;
#[cfg(test)]
mod merge;
#[cfg(test)]
mod pages;
#[cfg(test)]
mod runs;
#[cfg(test)]
mod steps;

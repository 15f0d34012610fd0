//! The trials of hard cases and of damage run on the program, and drives in heaps.
//!
//! The trials are those of `pk_test_faults`, `pk_test_stress` and `pk_test_spoiled`. Some run on drives that have all their memory in a
//! heap of a fixed size, and each of the allocations of an opening is refused. The crate has nothing but tests.
#![tactic(auto)]

#[cfg(test)]
mod bounds;
#[cfg(test)]
mod faults;
#[cfg(test)]
mod heap_tests;
#[cfg(test)]
mod heaps;
#[cfg(test)]
mod tests;

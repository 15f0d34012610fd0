//! Sessions of the program over an image and its log, both files in memory: each call of a file stops the machine or fails once, and what a
//! loss of power may leave of both, at its extremes and by chance, is opened again and read whole. The crate has nothing but these tests.
#![tactic(auto)]

#[cfg(test)]
mod chance;
#[cfg(test)]
mod disks;
#[cfg(test)]
mod map;
#[cfg(test)]
mod outcomes;
#[cfg(test)]
mod stops;

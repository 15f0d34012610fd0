//! Tests of an image and its log, and of the real file as a disk: sessions that are stopped at each call of a file, and such of which one
//! call fails; all that a loss of power may leave of both files, at its extremes and at random; sessions over what remains; logs that lost
//! bytes; and logs of other images. The crate has nothing but these tests.
#![tactic(auto)]

#[cfg(test)]
mod chance;
#[cfg(test)]
mod damage;
#[cfg(test)]
mod failures;
#[cfg(test)]
mod files;
#[cfg(test)]
mod log;
#[cfg(test)]
mod refusals;
#[cfg(test)]
mod stops;

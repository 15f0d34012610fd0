//! Tests of the formats of entries, pages and image files.
//!
//! Expected bytes are written out by hand, and each format is read with one byte changed at a time.
#![tactic(auto)]

#[cfg(test)]
mod base;
#[cfg(test)]
mod image;
#[cfg(test)]
mod jrnfmt;
#[cfg(test)]
mod meta;
#[cfg(test)]
mod rootfmt;
#[cfg(test)]
mod segfmt;

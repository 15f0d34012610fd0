//! Tests of boards, in memory and over a file, and of the words on an image file.
#![tactic(auto)]

#[cfg(test)]
mod file;
#[cfg(test)]
mod flash;
#[cfg(test)]
mod image;

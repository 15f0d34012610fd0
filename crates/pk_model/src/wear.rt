//! When a drive is worn out.

/// The number of the newest root from which on a drive is worn out: half of the numbers of 64 bits,
/// so that no command, which installs fewer than 2^32 roots, reaches the last of them.
pub const WORN_FROM: u64 = 9_223_372_036_854_775_808;

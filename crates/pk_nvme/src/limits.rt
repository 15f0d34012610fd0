//! Bounds of the fields of a command.

/// Namespace 1, which each drive has: that of the words, of a host and of a mirrored pair.
pub const NAMESPACE: u32 = 1;
/// All namespaces: a Flush may name them.
pub const ALL_NAMESPACES: u32 = 0xFFFF_FFFF;
/// The bytes of the count before the keys that a List returns.
pub const COUNT_BYTES: u32 = 4;
/// The most bytes that a List returns.
pub const MOST_LIST_BYTES: u32 = 65536;

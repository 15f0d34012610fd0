//! The options of a Store (NVMe Key Value Command Set 1.0, Store Option), each the weight of its
//! bit. They are written here alone: code, contracts and definitions use the names.

/// Bit 0: the controller shall not store the KV value if the KV key does not exist.
pub const IF_EXISTS: u8 = 1;
/// Bit 1: the controller shall not store the KV value if the KV key exists.
pub const IF_ABSENT: u8 = 2;
/// Both bits, which no Store meets: its key would have to exist and not to exist.
pub const BOTH: u8 = IF_EXISTS + IF_ABSENT;

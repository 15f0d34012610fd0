//! Status codes with the names of the standard (NVMe Base Specification 2.0, Key Value Command Set
//! 1.0), all of the generic type. They are written here alone: code, contracts and definitions use
//! the names.

/// The command was done.
pub const SUCCESSFUL_COMPLETION: u8 = 0x00;
/// No command has this opcode.
pub const INVALID_COMMAND_OPCODE: u8 = 0x01;
/// A field is out of its bounds: the host's buffer of a List has no room for the count of keys.
pub const INVALID_FIELD_IN_COMMAND: u8 = 0x02;
/// The namespace is not the drive's.
pub const INVALID_NAMESPACE_OR_FORMAT: u8 = 0x0B;
/// The live pages would be more than their limit.
pub const CAPACITY_EXCEEDED: u8 = 0x81;
/// The value is longer than the greatest one.
pub const INVALID_VALUE_SIZE: u8 = 0x85;
/// The key is longer than 16 bytes, or empty if a key is named.
pub const INVALID_KEY_SIZE: u8 = 0x86;
/// The key is not there.
pub const KEY_DOES_NOT_EXIST: u8 = 0x87;
/// A read of the flash failed.
pub const UNRECOVERED_ERROR: u8 = 0x88;
/// The key exists, and the Store asked for a new one.
pub const KEY_EXISTS: u8 = 0x89;

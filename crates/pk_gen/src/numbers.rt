//! The numbers of the generated workload. Code, contracts and definitions name them.
use pk_base::KEY_BYTES;

/// How many keys the commands name, each by its number from 0 on.
pub const KEYS: u32 = 5000;
/// The decimal digits of a key's number: all of the key after `key:`.
pub const KEY_DIGITS: usize = KEY_BYTES - 4;
/// The fewest bytes of a value.
pub const LEAST_VALUE_BYTES: u32 = 200;
/// The most bytes of a value.
pub const MOST_VALUE_BYTES: u32 = 4000;
/// How many lengths a value can have.
pub const VALUE_LENGTHS: u32 = MOST_VALUE_BYTES - LEAST_VALUE_BYTES + 1;
/// The letters of the alphabet, of which a value's padding is made.
pub const LETTERS: usize = 26;
/// The bytes of the host's buffer of a Retrieve: any value fits.
pub const RETRIEVE_BYTES: u32 = 4096;
/// The bytes of the host's buffer of a List.
pub const LIST_BYTES: u32 = 1024;
/// The steps of a Tick.
pub const TICK_STEPS: u32 = 16;

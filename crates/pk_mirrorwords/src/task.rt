//! What the words of a pair ask for.

use pk_base::Key;
use pk_nvme::Bytes;

/// What a word asks of a pair of drives. Each begins with a resync.
#[derive(Drop)]
pub enum PairTask {
    /// To store a value on both.
    Put(Key, Bytes),
    /// The whole value of a key.
    Get(Key),
    /// To take a key away from both.
    Delete(Key),
    /// All keys.
    List,
    /// The resync alone.
    Resync,
}

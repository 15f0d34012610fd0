//! What ports and hosts answer with.

use pk_nvme::COMPLETION_BYTES;
use thiserror::Error;

/// What a port answers to a command.
#[derive(Clone, Copy, Debug)]
pub struct Completed {
    /// The completion entry.
    pub entry: [u8; COMPLETION_BYTES],
    /// How many bytes of data are at the start of the buffer.
    pub data_len: u32,
}

/// The port failed. Its count of faults shows it.
#[derive(Clone, Copy, Debug, PartialEq, Eq)]
pub struct PortFault;

/// When a Store stores.
#[derive(Clone, Copy, Debug, PartialEq, Eq)]
pub enum StoreRule {
    /// Always.
    Any,
    /// Only if the key exists.
    IfExists,
    /// Only if the key is missing.
    IfAbsent,
}

/// Why a call has no answer.
#[derive(Clone, Copy, Debug, PartialEq, Eq, Error)]
pub enum HostError {
    /// The drive refused the command with this status.
    #[error("Refused")]
    Refused { status: u8 },
    /// The port failed.
    #[error("Port")]
    Port,
    /// Memory is missing.
    #[error("Memory")]
    Memory,
}

//! A value in memory.
ghost use Rattle.std.specs.Prelude.{◌≡◌, ◌<◌, ◌^◌, length, IfOk};

use std::alloc::{AllocError, Global};
use std::marker::Model;

/// The bytes of a value, below 2^32 of them. Contracts see them as a list.
#[derive(Drop)]
pub struct Value {
    bytes: Vec<u8>,
}

impl Model for Value {
    ghost use Rattle.std.specs.Prelude.{ℕ, List, ◌<◌, ◌^◌, length};

    ghost Value = { List ℕ };

    ghost view = { λ v. v.bytes.items };

    ghost invariant = { λ v. length v.bytes.items < 2 ^ 32 };
}

impl Value {
    /// A copy of these bytes; an error if the memory for it is missing.
    pub fn of(alloc: Global, bytes: &[u8]) -> Result<Value, AllocError>
        requires { length bytes.now < 2 ^ 32 }
        ensures { IfOk result (λ v. v ≡ bytes.now) }
    {
        Ok(Value {
            bytes: bytes.to_vec(alloc)?,
        })
    }

    /// How many bytes there are.
    pub fn len(&self) -> u32
        ensures { result ≡ length self.now }
    {
        self.bytes.len() as u32
    }

    /// The bytes.
    pub fn bytes(&self) -> &[u8]
        ensures { result.now ≡ self.now }
    {
        self.bytes.as_slice()
    }
}

//! The input, byte by byte over pieces of any size.
ghost use Rattle.std.specs.Prelude.{◌≡◌, ◌≤◌, ◌<◌, List, ℕ, [], length, drop, IfOk, OnErr};
ghost use Rattle.pk_text.specs.Steps.{Filled, Nexted, FeedFailed};

use crate::sizes::PIECE;
use pk_nand::{Board, HostFault};
use std::alloc::{AllocError, Global};
use std::marker::Model;

/// Bytes that were fetched and are not used yet. Contracts see them as a list.
#[derive(Drop)]
pub struct Feed {
    bytes: Vec<u8>,
    from: usize,
    to: usize,
}

impl Model for Feed {
    ghost use Rattle.std.specs.Prelude.{◌≤◌, ◌<◌, List, ℕ, length, drop, take};

    ghost Value = { List ℕ };

    ghost view = { λ f. drop f.from (take f.to f.bytes.items) };

    ghost invariant = { λ f. (f.from ≤ f.to) × (f.to ≤ length f.bytes.items)
        × (0 < length f.bytes.items) };
}

impl Feed {
    /// No bytes; an error if memory is missing.
    pub fn new(alloc: Global) -> Result<Feed, AllocError>
        ensures { IfOk result (λ f. f ≡ []) }
    {
        Ok(Feed {
            bytes: Vec::from_elem(alloc, 0u8, PIECE)?,
            from: 0,
            to: 0,
        })
    }

    /// No bytes.
    pub fn clear(&mut self)
        ensures { self.new ≡ [] }
    {
        self.from = 0;
        self.to = 0;
    }

    /// Fetches if no byte is there; false if the input is at its end.
    pub fn fill<B: Board>(&mut self, board: &mut B) -> Result<bool, HostFault>
        ensures ok { IfOk result
            (λ some. Filled self.old self.new (B.state board.old) (B.state board.new) some) }
        ensures err { OnErr result (FeedFailed (B.state board.old) (B.state board.new)) }
    {
        if self.from < self.to {
            return Ok(true);
        }
        match board.fetch(&mut self.bytes) {
            Ok(count) => {
                self.from = 0;
                self.to = count;
                Ok(0 < count)
            }
            Err(fault) => Err(fault),
        }
    }

    /// The bytes that are there.
    pub fn front(&self) -> &[u8]
        ensures { result.now ≡ self.now }
    {
        &self.bytes[self.from..self.to]
    }

    /// Uses `count` of them.
    pub fn take(&mut self, count: usize)
        requires { count ≤ length self.old }
        ensures { self.new ≡ drop count self.old }
    {
        self.from += count;
    }

    /// The next byte; None if the input is at its end.
    pub fn next<B: Board>(&mut self, board: &mut B) -> Result<Option<u8>, HostFault>
        ensures ok { IfOk result
            (λ byte. Nexted self.old self.new (B.state board.old) (B.state board.new) byte) }
        ensures err { OnErr result (FeedFailed (B.state board.old) (B.state board.new)) }
    {
        match self.fill(board) {
            Ok(true) => {
                let byte = self.front()[0];
                self.take(1);
                Ok(Some(byte))
            }
            Ok(false) => Ok(None),
            Err(fault) => Err(fault),
        }
    }
}

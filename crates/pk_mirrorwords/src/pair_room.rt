//! The memory for what a word of a pair says.
ghost use Rattle.std.specs.Prelude.{◌≡◌, [], IfOk};
ghost use Rattle.pk_words.specs.Said.{Spoken};

use pk_base::Shape;
use pk_host::KeyPage;
use pk_nvme::Bytes;
use pk_words::sizes::LINE_BYTES;
use std::alloc::{AllocError, Global};
use std::marker::Model;

/// A value, a page of keys and a text, for drives of one shape. Contracts see the shape and the text.
#[derive(Drop)]
pub struct PairRoom {
    pub(crate) shape: Shape,
    pub(crate) value: Vec<u8>,
    pub(crate) page: KeyPage,
    pub(crate) text: Bytes,
}

impl Model for PairRoom {
    ghost use Rattle.std.specs.Prelude.{◌≡◌, ◌+◌, ◌*◌, ◌<◌, ◌≤◌, ◌^◌, length};
    ghost use Rattle.pk_base.specs.Shape.{greatest, limit};
    ghost use Rattle.pk_words.specs.declared.sizes.TheConstants.{LINE_BYTES};
    ghost use Rattle.pk_words.specs.Said.{Spoken};

    ghost Value = { Spoken };

    ghost view = { λ r. record { shape = r.shape; text = r.text.items } };

    ghost invariant = { λ r. (length r.value.items ≡ greatest r.shape)
        × (greatest r.shape < 2 ^ 32)
        × (2 * greatest r.shape + 11 + LINE_BYTES * limit r.shape ≤ r.text.room) };
}

impl PairRoom {
    /// Takes the memory: of the text for a whole value, and for a line of each key that a drive can have.
    pub fn new(alloc: Global, shape: Shape) -> Result<PairRoom, AllocError>
        ensures { IfOk result (λ r. r ≡ record { shape = shape; text = [] }) }
    {
        let greatest = shape.greatest() as usize;
        let lines = LINE_BYTES * shape.limit() as usize;
        Ok(PairRoom {
            shape,
            value: Vec::from_elem(alloc, 0, greatest)?,
            page: KeyPage::new(alloc)?,
            text: Bytes::with_room(alloc, 2 * greatest + 11 + lines)?,
        })
    }

    /// The text that was said last.
    pub fn text(&self) -> &[u8]
        ensures { result.now ≡ self.now.text }
    {
        self.text.bytes()
    }
}

//! The shapes of the outer and the inner flash.
ghost use Rattle.std.specs.Prelude.{◌≡◌, ◌≤◌};
ghost use Rattle.pk_base.specs.Shape.{checked};
ghost use Rattle.pk_remap.specs.declared.layout.TheConstants.{MOST_SPARES};
ghost use Rattle.pk_remap.specs.Places.{inner_shape as inner_shape_of};
ghost use Rattle.pk_remap.specs.Remapped.{without_spares};

use pk_base::{Shape, ShapeError};

/// The two table blocks.
const TABLE_BLOCKS: u32 = 2;

/// The shape of an inner flash with this outer flash, spares and two table blocks.
pub fn inner_shape(shape: &Shape, spares: u16) -> Result<Shape, ShapeError>
    requires { spares ≤ MOST_SPARES }
    ensures { result ≡ checked (inner_shape_of shape.now spares) }
{
    shape.known();
    Shape::new(
        shape.page_bytes(),
        shape.block_pages(),
        shape.blocks() + spares as u32 + TABLE_BLOCKS,
    )
}

/// The shape of the outer flash of this inner one, without its spares and its two table blocks.
pub fn outer_shape(inner: &Shape, spares: u16) -> Result<Shape, ShapeError>
    requires { spares ≤ MOST_SPARES }
    ensures { result ≡ checked (without_spares inner.now spares) }
{
    inner.known();
    let more = spares as u32 + TABLE_BLOCKS;
    Shape::new(
        inner.page_bytes(),
        inner.block_pages(),
        inner.blocks().saturating_sub(more),
    )
}

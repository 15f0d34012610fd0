//! In which inner block and page an outer one is.
ghost use Rattle.std.specs.Prelude.{◌≡◌, ◌+◌, ◌*◌, ◌≤◌, ◌<◌, length};
ghost use Rattle.pk_remap.specs.Places.{serving};
ghost use Rattle.pk_remap.specs.declared.layout.TheConstants.{MOST_SPARES};

use pk_base::Shape;

/// The inner block that has an outer block: the last spare that serves it, or the block of the same number.
pub fn place(shape: &Shape, serves: &[u16], block: u32) -> u32
    requires { length serves.now ≤ MOST_SPARES }
    ensures { result ≡ serving shape.now.blocks serves.now block block }
{
    shape.known();
    let mut found = block;
    for i in 0..serves.len() {
        if serves[i] as u32 == block {
            found = shape.blocks() + i as u32;
        }
    }
    found
}

/// The number of a page, by its block and its place in the block.
pub fn page_in(shape: &Shape, block: u32, page: u32) -> u32
    requires block { block ≤ 8192 }
    requires page { page ≤ 256 }
    ensures { result ≡ block * shape.now.block_pages + page }
{
    shape.known();
    block * shape.block_pages() + page
}

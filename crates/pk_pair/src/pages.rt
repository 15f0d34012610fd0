//! Where the pairs of commits are.
ghost use Rattle.std.specs.Prelude.{◌≡◌, ◌≢◌, ◌<◌, ◌≤◌, ◌+◌, ◌*◌, ◌/◌, ◌%◌, slice_index};
ghost use Rattle.pk_base.specs.Shape.{epoch_commits, page_count};
ghost use Rattle.pk_base.specs.Page.{commit_page as commit_page_of};
ghost use Rattle.pk_pair.specs.Pairs.{AllExist};

use pk_base::Shape;

/// The first page of a commit, by its index in the epoch of these blocks: of the first block, or of
/// the second after all pairs of the first.
pub fn commit_page(shape: &Shape, blocks: [u16; 2], index: u32) -> u32
    requires within { index < epoch_commits shape.now }
    ensures page { result ≡ commit_page_of shape.now blocks index }
    ensures even { result % shape.now.block_pages % 2 ≡ 0 }
    ensures room { result % shape.now.block_pages + 1 < shape.now.block_pages }
    ensures exists { AllExist shape.now blocks → result + 1 < page_count shape.now }
{
    shape.known();
    let pages = shape.block_pages();
    let place = 2 * index;
    blocks[(place / pages) as usize] as u32 * pages + place % pages
}

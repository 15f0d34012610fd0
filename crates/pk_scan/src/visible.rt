//! The values of all keys that exist, each read and accepted.
ghost use Rattle.std.specs.Prelude.{◌≡◌, List, [], length, IfOk, IfErr, OnOk};
ghost use Rattle.std.specs.List.{AllByRecursion};
ghost use Rattle.pk_base.specs.Key.{Key};
ghost use Rattle.pk_base.specs.Entry.{Place};
ghost use Rattle.pk_base.specs.EntryChecks.{IsPlace};
ghost use Rattle.pk_base.specs.Page.{page_at};
ghost use Rattle.pk_model.specs.Values.{values_of};
ghost use Rattle.pk_space.specs.Uses.{nothing_used};
ghost use Rattle.pk_nand.specs.Calls.{IsReady};
ghost use Rattle.pk_walk.specs.Walking.{IsLeft};
ghost use Rattle.pk_live.specs.Lives.{Lives};
ghost use Rattle.pk_scan.specs.Adopts.{owned_blocks};
ghost use Rattle.pk_scan.specs.OpeningParts.{PartNotOpened};
ghost use Rattle.pk_scan.specs.Board.{StaysReady};
ghost use Rattle.pk_scan.specs.Taken.{TakesValues, ReadsExactly};
ghost use Rattle.pk_scan.specs.Used.{held_limits};

use crate::accept::{Named, accept_value};
use crate::errors::OpenError;
use pk_base::{Entry, Place, Shape};
use pk_buf::Buffer;
use pk_level::Levels;
use pk_live::Live;
use pk_nand::Nand;
use pk_pin::PinArena;
use pk_region::Region;
use pk_space::Use;
use pk_walk::Walk;

/// The lists of entries that a walk goes over, and the frames of the runs.
#[derive(Drop)]
pub struct Lists<'a, A: Region> {
    pub arena: &'a PinArena<A>,
    pub levels: &'a Levels<A>,
    pub active: &'a Buffer<A>,
    pub frozen: &'a Buffer<A>,
}

/// Reads the values of all keys that the walk returns, in its order, and takes their pages: those
/// of blocks that have an owner, which are those that the root names, are not free for them.
/// Counts what each namespace uses; it is within the limit that the root has for it. Returns how
/// many keys there are. `Damaged` names the first value whose pages may not be taken, or its first
/// page that is wrong; `Fault` if a read failed. `buf` has the size of a page and is overwritten.
///
/// A walk that begins at the first key reads each page of the runs without frames once; the pages
/// of the values are read in addition.
pub fn read_values<B: Nand, A: Region>(
    board: &mut B,
    shape: &Shape,
    named: &Named<A>,
    walk: &mut Walk<A>,
    lists: &Lists<A>,
    live: &mut Live<A>,
    spaces: &mut Use,
    buf: &mut [u8],
) -> Result<u32, OpenError>
    requires ready { IsReady (B.state board.old) shape.now }
    requires shapes { (lists.now.levels.now.shape ≡ shape.now) × (walk.old.shape ≡ shape.now) }
    requires left { (es : List (Key × Place))
        × IsLeft walk.old (B.state board.old).pages lists.now.arena.now lists.now.levels.now.runs
        lists.now.active.now.entries lists.now.frozen.now.entries es
        × AllByRecursion (λ e. IsPlace shape.now e.1) es }
    requires none { Lives shape.now (owned_blocks named.now.pool.now) live.old [] }
    requires unused { spaces.old ≡ nothing_used }
    requires room { length buf.old ≡ shape.now.page_bytes }

    // The values of all keys, and the number of reads.
    ensures read { IfOk result (λ keys. (es : List (Key × Place))
        → IsLeft walk.old (B.state board.old).pages lists.now.arena.now lists.now.levels.now.runs
        lists.now.active.now.entries lists.now.frozen.now.entries es
        → TakesValues shape.now (B.state board.old).pages
        (held_limits named.now.root.now) (owned_blocks named.now.pool.now) live.new spaces.new keys
        es) }
    ensures exact { OnOk result ((es : List (Key × Place))
        → IsLeft walk.old (B.state board.old).pages lists.now.arena.now lists.now.levels.now.runs
        lists.now.active.now.entries lists.now.frozen.now.entries es
        → ReadsExactly shape.now lists.now.levels.now.runs walk.old es
        (B.state board.old) (B.state board.new)) }

    // Or the reading refuses one, or a read failed.
    ensures err { IfErr result (λ e. (es : List (Key × Place))
        → IsLeft walk.old (B.state board.old).pages lists.now.arena.now lists.now.levels.now.runs
        lists.now.active.now.entries lists.now.frozen.now.entries es
        → PartNotOpened
        (values_of shape.now (page_at (B.state board.old).pages)
        (held_limits named.now.root.now) (owned_blocks named.now.pool.now) [] es)
        (B.state board.old) (B.state board.new) e) }

    // Either way nothing but reads was done.
    ensures board { StaysReady shape.now (B.state board.old) (B.state board.new) }
    ensures buffer { length buf.new ≡ length buf.old }
{
    shape.known();
    for keys in 0..shape.limit() + 1 {
        match walk.next(board, lists.arena, lists.levels, lists.active, lists.frozen) {
            Ok(Some(Entry::Put { key, page, len })) => {
                let place = Place { page, len };
                match accept_value(board, shape, named, live, spaces, &key, place, buf) {
                    Ok(()) => {}
                    Err(error) => return Err(OpenError::from(error)),
                }
            }
            Ok(Some(Entry::Gone { .. })) => unreachable!(),
            Ok(None) => return Ok(keys),
            Err(_) => return Err(OpenError::Fault),
        }
    }
    unreachable!()
}

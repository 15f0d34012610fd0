//! One page over another.
ghost use Rattle.std.specs.Prelude.{◌≡◌, ◌≤◌, ◌<◌, length};
ghost use Rattle.pk_base.specs.Page.{Flash as Pages};
ghost use Rattle.pk_nand.specs.Calls.{IsReady};
ghost use Rattle.pk_pool.specs.Blocks.{PoolOnFlash};
ghost use Rattle.pk_run.specs.Kept.{empty};
ghost use Rattle.pk_merge.specs.Jobs.{IsIdle};

use crate::begin::{begin, own};
use crate::pages::{output_page, source_page, target_page};
use crate::runs::open_both;
use crate::steps::{Counts, finish, read_output};
use linked_list_allocator::LocalHeap;
use pk_base::Shape;
use pk_flash::{Flash, Left};
use pk_merge::MergeJob;
use pk_nand::Nand;
use pk_pin::PinArena;
use pk_plan::Plan;
use pk_pool::{Owner, Pool};
use pk_region::Region;
use pk_run::Run;
use pk_test_boards::{Held, NONE, board_with, worked};
use std::alloc::{AllocError, Allocator};
use std::test::*;

// What is seen of a merge: its steps; the output's level, entries, pages, first block and frames;
// and the blocks for meta pages.
#[derive(Clone, Copy, Debug, PartialEq, Eq)]
struct Seen {
    steps: [u8; 8],
    output: (u8, u32, u32, u16, u32),
    blocks: u32,
}

// What is seen of a merge with this output.
fn outcome<A: Allocator>(steps: [u8; 8], output: &Run<A>, blocks: u32) -> Option<Seen> {
    let block = *output.blocks().first()?;
    Some(Seen {
        steps,
        output: (
            output.level(),
            output.entries(),
            output.pages(),
            block,
            output.leases(),
        ),
        blocks,
    })
}

// Merges the run in block 2 into that in block 3, both without entries yet in memory, and reads
// the output's first page.
fn merge<A: Region, B: Counts>(
    pool: &mut Pool<A>,
    arena: &mut PinArena<A>,
    source: &mut Run<A>,
    target: &mut Run<A>,
    job: &mut MergeJob<A>,
    board: &mut B,
    buf: &mut [u8],
) -> Option<Seen>
    // The board, and a job that does nothing.
    requires ready { IsReady (B.state board.old) target.old.shape }
    requires idle { IsIdle target.old.shape job.old }

    // Both runs without entries, whose blocks exist.
    requires source { source.old ≡ empty target.old.shape source.old.level }
    requires target { target.old ≡ empty target.old.shape target.old.level }
    requires exist { 3 < target.old.shape.blocks }

    // Blocks, frames and bytes for pages of their shape.
    requires pool { pool.old.shape ≡ target.old.shape }
    requires fits { (flash : Pages) → PoolOnFlash pool.old flash }
    requires frames { arena.old.page_bytes ≡ target.old.shape.page_bytes }
    requires sized { length buf.old ≡ target.old.shape.page_bytes }
{
    if !own(pool, 2) || !own(pool, 3) {
        return None;
    }
    if open_both(board, arena, source, target, buf).is_err() {
        return None;
    }
    if !begin(job, pool, arena, source, target) {
        return None;
    }
    let steps = match finish(job, board, pool, arena, source, target) {
        Ok(steps) => steps,
        Err(_) => return None,
    };
    if !read_output(job, board, arena, target, buf) {
        return None;
    }
    outcome(steps, job.output(), pool.used(Owner::Meta))
}

// What is seen of a merge into a run of this level in a heap; None if it took memory after its
// beginning.
fn merge_in(
    heap: &LocalHeap,
    board: &mut Flash,
    shape: Shape,
    level: u8,
    frames: u32,
    buf: &mut [u8; 512],
) -> Result<Option<Seen>, AllocError>
    requires level { 2 ≤ level × level ≤ 4 }
    requires ready { IsReady (⟦<Flash as Nand>⟧.state board.old) shape }
    requires sized { shape.page_bytes ≡ 512 }
    requires blocks { shape.blocks ≡ 64 }
{
    let plan = Plan::of(shape);
    let mut pool = Pool::new(heap, plan)?;
    let mut arena = PinArena::new(heap, frames, shape.page_bytes())?;
    let mut source = Run::new(heap, shape, level - 1)?;
    let mut target = Run::new(heap, shape, level)?;
    let mut job = MergeJob::new(heap, plan, frames)?;
    let used = heap.used();
    let seen = merge(
        &mut pool,
        &mut arena,
        &mut source,
        &mut target,
        &mut job,
        board,
        buf,
    );
    if heap.used() != used {
        return Ok(None);
    }
    Ok(seen)
}

// By the level, the frames of the arena, and the call that fails: the steps, each with at most one
// call; and the output's frames.
// Calls 0 and 1 read the two runs when they are opened.
#[test]
fn one_page(rt: HostRuntime) -> Result<(), Fail> {
    for (level, frames, call, steps, leases) in [
        (2u8, 1u32, NONE, b"rrep    ", 0u32),
        (2, 36, NONE, b"rrep    ", 1),
        (4, 1, NONE, b"rrep    ", 0),
        (2, 1, 2, b"xrrep   ", 0),
        (2, 36, 3, b"rxrep   ", 1),
        (4, 1, 3, b"rxrep   ", 0),
    ] {
        let heap = LocalHeap::new(rt.alloc(), 65536)?;
        let shape = worked()?;
        let pages = [
            (32, Held::Bytes(&source_page(level - 1))),
            (48, Held::Bytes(&target_page(level))),
        ];
        let mut board = board_with(rt.alloc(), shape, &pages, call, Left::Torn)?;
        let mut buf = [0u8; 512];
        let seen = merge_in(&heap, &mut board, shape, level, frames, &mut buf)?;
        let entries = if level == 4 { 2 } else { 3 };
        let wanted = Seen {
            steps: *steps,
            output: (level, entries, 1, 4, leases),
            blocks: 3,
        };
        assert_eq!(rt; seen, Some(wanted));
        assert!(rt; buf == output_page(level));
        assert_eq!(rt; heap.used(), 0);
    }
    Ok(())
}

// A job that finds no room is an error, and all that was taken is freed.
#[test]
fn no_room(rt: HostRuntime) -> Result<(), Fail> {
    let shape = worked()?;
    let heap = LocalHeap::new(rt.alloc(), 2048)?;
    assert!(rt; MergeJob::new(&heap, Plan::of(shape), 36).is_err());
    assert_eq!(rt; heap.used(), 0);
    Ok(())
}

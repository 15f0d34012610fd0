//! Runs, each read from its pages.
ghost use Rattle.std.specs.Prelude.{◌≡◌, ◌+◌, ◌≤◌, ◌++◌, List, length, IfOk, IfErr, OnOk, OnErr};
ghost use Rattle.pk_base.specs.Shape.{run_pages};
ghost use Rattle.pk_base.specs.Entry.{Entry as EntrySpec};
ghost use Rattle.pk_base.specs.Page.{Flash};
ghost use Rattle.pk_nand.specs.Calls.{IsReady};
ghost use Rattle.pk_nand.specs.Operations.{after_read};
ghost use Rattle.pk_nand.specs.Counts.{after_reads};
ghost use Rattle.pk_pin.specs.Frames.{Frames};
ghost use Rattle.pk_run.specs.Kept.{RunOnFlash, most_blocks};
ghost use Rattle.pk_scan.specs.Board.{StaysReady};
ghost use Rattle.pk_scan.specs.Runs.{MayLoadRun, HasRun, NotRead, LoadsPages, IsLast};
ghost use Rattle.pk_scan.specs.Runs.{AwaitsPages, AwaitsPage, PageAdded, PageTaken, PageRefused};

use crate::errors::PageError;
use crate::pages::{goes_on, key_at};
use pk_base::Key;
use pk_nand::{Nand, PageRead};
use pk_pin::PinArena;
use pk_run::Run;
use std::alloc::Allocator;

// Adds blocks after the others.
fn add_blocks<A: Allocator>(blocks: &[u16], into: &mut Run<A>)
    requires { length into.old.blocks + length blocks.now ≤ most_blocks into.old }
    ensures added { into.new ≡ record into.old { blocks = into.old.blocks ++ blocks.now } }
    ensures stands { (flash : Flash) (arena : Frames) (es : List EntrySpec)
        → RunOnFlash into.old flash arena es → RunOnFlash into.new flash arena es }
{
    for block in blocks {
        into.push_block(*block);
    }
}

// Reads the next page of a run, with `entries` entries, and adds it. Returns its last key; the last
// one before is `last`.
fn take_page<B: Nand, A: Allocator>(
    board: &mut B,
    arena: &mut PinArena<A>,
    pins: bool,
    spaces: u8,
    entries: u32,
    last: &Option<Key>,
    into: &mut Run<A>,
    buf: &mut [u8],
) -> Result<Key, PageError>
    requires ready { IsReady (B.state board.old) into.old.shape }
    requires next { AwaitsPage pins entries arena.old into.old }
    requires before { (es : List EntrySpec)
        × RunOnFlash into.old (B.state board.old).pages arena.old es × IsLast last.now es }
    requires sized { length buf.old ≡ into.old.shape.page_bytes }

    // The page is in the run, after one read.
    ensures taken { IfOk result (λ key. (es : List EntrySpec)
        → RunOnFlash into.old (B.state board.old).pages arena.old es → IsLast last.now es
        → PageTaken spaces (B.state board.old).pages arena.new into.old into.new es entries key) }
    ensures added { OnOk result (PageAdded pins arena.old arena.new into.old into.new entries) }
    ensures ok { OnOk result (B.state board.new ≡ after_read (B.state board.old)) }

    // Or it does not go on, or its read failed.
    ensures err { IfErr result (λ e. (es : List EntrySpec)
        → RunOnFlash into.old (B.state board.old).pages arena.old es → IsLast last.now es
        → PageRefused spaces (B.state board.old) (B.state board.new) into.old es entries e) }
    ensures kept { OnErr result ((into.new ≡ into.old) × (arena.new ≡ arena.old)) }
    ensures buffer { length buf.new ≡ length buf.old }
{
    into.known();
    let shape = into.shape();
    let index = into.pages();
    let page = into.page(index);
    match board.read(page, buf) {
        Ok(PageRead::Whole) => {
            if !goes_on(&shape, spaces, into.level(), index, entries, last, buf) {
                return Err(PageError::Damaged { page });
            }
            let lease = arena.keep(pins, buf);
            into.push_page(key_at(&shape, buf, 0), lease, entries);
            Ok(key_at(&shape, buf, entries - 1))
        }
        Ok(_) => Err(PageError::Damaged { page }),
        Err(_) => Err(PageError::Fault),
    }
}

// Reads the pages of a run that has its blocks, and no page.
fn read_pages<B: Nand, A: Allocator>(
    board: &mut B,
    arena: &mut PinArena<A>,
    pins: bool,
    spaces: u8,
    count: u32,
    into: &mut Run<A>,
    buf: &mut [u8],
) -> Result<(), PageError>
    requires ready { IsReady (B.state board.old) into.old.shape }
    requires awaits { AwaitsPages pins count (B.state board.old).pages arena.old into.old }
    requires sized { length buf.old ≡ into.old.shape.page_bytes }

    // The run represents all its pages, after this many reads.
    ensures has_run { OnOk result (HasRun into.old.shape spaces into.old.level count into.old.blocks
        (B.state board.old).pages arena.new into.new) }
    ensures reads { OnOk result (B.state board.new
        ≡ after_reads (run_pages into.old.shape count) (B.state board.old)) }

    // Or the reading refuses one, or a read failed.
    ensures err { IfErr result (λ e. NotRead into.old.shape spaces into.old.level count
        into.old.blocks (B.state board.old) (B.state board.new) e) }

    // Either way the run represents the pages before, and nothing but reads was done.
    ensures loads { LoadsPages pins (B.state board.old).pages into.old.blocks
        arena.old arena.new into.old into.new }
    ensures board { StaysReady into.old.shape (B.state board.old) (B.state board.new) }
    ensures buffer { length buf.new ≡ length buf.old }
{
    into.known();
    let most = into.shape().entries();
    let pages = count.div_ceil(most);
    let mut last = None;
    for _ in 0..pages {
        let entries = (count - into.entries()).min(most);
        match take_page(board, arena, pins, spaces, entries, &last, into, buf) {
            Ok(key) => last = Some(key),
            Err(error) => return Err(error),
        }
    }
    Ok(())
}

/// Reads a run of `count` entries from its blocks into an empty run of its level, page by page, up
/// to the first page that is wrong. If `pins`, each page is kept in a frame of the arena, which has
/// enough free ones. `buf` has the size of a page and is overwritten.
///
/// `Damaged` names the first page that is not Whole, not the meta page of this level, index and
/// count, whose keys do not rise after those of the pages before, or which has an entry of another namespace
/// than the first `spaces`, or a deleted key in the deepest run. `Fault` if a read failed. After either the run represents the pages before.
pub fn load_run<B: Nand, A: Allocator>(
    board: &mut B,
    arena: &mut PinArena<A>,
    pins: bool,
    spaces: u8,
    count: u32,
    blocks: &[u16],
    into: &mut Run<A>,
    buf: &mut [u8],
) -> Result<(), PageError>
    requires ready { IsReady (B.state board.old) into.old.shape }
    requires may { MayLoadRun pins count blocks.now arena.old into.old }
    requires sized { length buf.old ≡ into.old.shape.page_bytes }

    // The run represents its entries, after this many reads.
    ensures has_run { OnOk result (HasRun into.old.shape spaces into.old.level count blocks.now
        (B.state board.old).pages arena.new into.new) }
    ensures reads { OnOk result (B.state board.new
        ≡ after_reads (run_pages into.old.shape count) (B.state board.old)) }

    // Or the reading refuses it, or a read failed.
    ensures err { IfErr result (λ e. NotRead into.old.shape spaces into.old.level count blocks.now
        (B.state board.old) (B.state board.new) e) }

    // Either way the run represents the pages before, and nothing but reads was done.
    ensures loads { LoadsPages pins (B.state board.old).pages blocks.now
        arena.old arena.new into.old into.new }
    ensures board { StaysReady into.old.shape (B.state board.old) (B.state board.new) }
    ensures buffer { length buf.new ≡ length buf.old }
{
    into.known();
    add_blocks(blocks, into);
    read_pages(board, arena, pins, spaces, count, into, buf)
}

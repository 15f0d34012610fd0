//! What is merged into a run.
ghost use Rattle.std.specs.Prelude.{◌≡◌, ◌<◌, ◌++◌, ◌∷◌, [], length, IfErr, OnOk, OnErr};
ghost use Rattle.pk_base.specs.Entry.{key_of};
ghost use Rattle.pk_base.specs.EntryBytes.{entry_at};
ghost use Rattle.pk_base.specs.Key.{key_cmp};
ghost use Rattle.pk_base.specs.Shape as spec;
ghost use Rattle.pk_base.specs.Shape.{page_entries};
ghost use Rattle.pk_meta.specs.Cells.{IsCell};
ghost use Rattle.pk_meta.specs.Over.{kept_at};
ghost use Rattle.pk_nand.specs.Calls.{IsReady};
ghost use Rattle.pk_nand.specs.declared.types.Fault.TheVariants.{Reading};
ghost use Rattle.pk_merge.specs.Sources.{count_of, head_in, HasNextEntry, IsNextEntry, wants_page_in, MayLoadIn, LoadsIn, FailsToLoadIn};

use crate::cursor::Cursor;
use crate::gathered::Gathered;
use pk_buf::Buffer;
use pk_meta::{compare_cells, compare_with_cell, written};
use pk_nand::{Fault, Nand};
use pk_pin::PinArena;
use pk_region::Region;
use pk_run::Run;
use std::cmp::Ordering;

/// The frozen write buffer, or the run of the level above.
#[derive(Drop)]
pub enum Source<'a, A: Region> {
    Frozen(&'a Buffer<A>),
    Run(&'a Run<A>),
}

/// What a merge reads, and whether the pages of its output are kept in frames.
#[derive(Drop)]
pub struct Inputs<'a, A: Region> {
    pub source: &'a Source<'a, A>,
    pub target: &'a Run<A>,
    pub pins: bool,
}

impl<'a, A: Region> Source<'a, A> {
    /// How many entries it has.
    pub fn entries(&self) -> u32
        ensures { result ≡ count_of self.now }
    {
        match self {
            Source::Frozen(buffer) => buffer.len(),
            Source::Run(run) => run.entries(),
        }
    }

    /// Whether the entry at the cursor's place is on a page that is not loaded.
    pub(crate) fn wants_page(&self, cursor: &Cursor<A>) -> bool
        ensures { result ≡ wants_page_in self.now cursor.now }
    {
        match self {
            Source::Frozen(_) => false,
            Source::Run(_) => cursor.wants_page(),
        }
    }

    /// Loads the page of the cursor's place, by at most one read. `Reading` if the read fails;
    /// otherwise nothing fails.
    pub(crate) fn load<B: Nand>(
        &self,
        cursor: &mut Cursor<A>,
        board: &mut B,
        arena: &PinArena<A>,
    ) -> Result<(), Fault>
        requires { MayLoadIn self.now cursor.old (B.state board.old) arena.now }
        ensures loads { OnOk result
            (LoadsIn self.now cursor.old (B.state board.old) cursor.new (B.state board.new)) }
        ensures reading { IfErr result (λ fault. fault ≡ Reading) }
        ensures fails { OnErr result
            (FailsToLoadIn self.now cursor.old (B.state board.old) cursor.new (B.state board.new)) }
        ensures ready { (shape : spec.Shape) → IsReady (B.state board.old) shape
            → IsReady (B.state board.new) shape }
    {
        match self {
            Source::Frozen(_) => unreachable!(),
            Source::Run(run) => cursor.load(board, arena, run),
        }
    }

    /// How the key of the entry at the cursor's place compares with that of an entry of which these
    /// are the bytes.
    pub(crate) fn compare_head(&self, cursor: &Cursor<A>, cell: &[u8]) -> Ordering
        requires head { HasNextEntry self.now cursor.now }
        requires cell { IsCell cell.now }
        ensures order { result
            ≡ key_cmp (key_of (head_in self.now cursor.now)) (key_of (entry_at cell.now)) }
        ensures head { IsNextEntry self.now cursor.now (head_in self.now cursor.now) }
    {
        match self {
            Source::Frozen(buffer) => compare_with_cell(buffer.key(cursor.place()), cell),
            Source::Run(run) => compare_cells(cursor.head(run), cell),
        }
    }

    /// Adds the entry at the cursor's place to those of the next page.
    pub(crate) fn give_head(&self, cursor: &Cursor<A>, level: u8, gathered: &mut Gathered<A>)
        requires head { HasNextEntry self.now cursor.now }
        requires room { length gathered.old.entries < page_entries gathered.old.shape }
        ensures entries { gathered.new.entries
            ≡ gathered.old.entries ++ kept_at level (head_in self.now cursor.now ∷ []) }
        ensures shape { gathered.new.shape ≡ gathered.old.shape }
        ensures head { IsNextEntry self.now cursor.now (head_in self.now cursor.now) }
    {
        match self {
            Source::Frozen(buffer) => gathered.keep(level, &written(&buffer.at(cursor.place()))),
            Source::Run(run) => gathered.keep(level, cursor.head(run)),
        }
    }
}

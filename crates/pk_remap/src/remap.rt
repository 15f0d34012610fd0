//! A flash with spare blocks over another flash.
ghost use Rattle.std.specs.Prelude.{◌≡◌, ◌≤◌, ◌*◌, true, false, IfOk};
ghost use Rattle.pk_remap.specs.declared.layout.TheConstants.{MOST_SPARES};
ghost use Rattle.pk_remap.specs.Remapped.{RemapHolds, HasLog, is_open as is_open_image, is_sure as is_sure_image, spares_left as spares_left_of, remap_board, fresh_remap, with_refusal, FindsTable};
ghost use Rattle.pk_remap.specs.MostCalls.{AtMostCalls, find_calls};

use crate::counts::BoardCounts;
use crate::image::Image;
use crate::mark_log::MarkLog;
use crate::relocation::Relocation;
use pk_nand::{LoadFault, Nand, NandFault};
use std::alloc::{AllocError, Global};

/// A flash of some blocks over one with more: the spare blocks, and at its end two blocks for tables. A program or an erase that fails there
/// moves the block to a spare block, and the drive above meets no fault, unless no spare block is left, a page of the block is Torn, or
/// the move fails itself. The counts are those of the calls of this flash.
#[derive(Drop)]
pub struct Remap<N: Nand> {
    pub(crate) inner: N,
    pub(crate) work: Relocation,
    pub(crate) log: MarkLog,
    pub(crate) counts: BoardCounts,
    pub(crate) image: Image,
    ghost holds: { RemapHolds image work (N.state inner) },
    ghost logs: { HasLog image work.shape log },
}

impl<N: Nand + Drop> Remap<N> {
    /// A flash over this one, of which `spares` blocks are spare blocks; it reports its marks if the log has room for some. The memory of its
    /// three page buffers is taken here, that of the log by `load` and `make`. Without memory the inner flash is dropped.
    pub fn new(alloc: Global, inner: N, spares: u16, log: usize) -> Result<Remap<N>, AllocError>
        // How many spare blocks there are.
        requires some { 1 ≤ spares }
        requires few { spares ≤ MOST_SPARES }

        // The board, of which nothing is known yet.
        ensures board { IfOk result
            (λ r. ⟦<Remap<N> as Nand>⟧.state r ≡ fresh_remap log (N.state inner)) }
        ensures inner { IfOk result (λ r. r.inner ≡ inner) }
        ensures spares { IfOk result (λ r. r.work.spares ≡ spares) }
        ensures left { IfOk result (λ r. spares_left_of r.image r.work ≡ 0) }
        ensures room { IfOk result (λ r. r.log.room ≡ log) }
    {
        let marks = MarkLog::new(alloc, log);
        match Relocation::new(alloc, spares) {
            Ok(work) => Ok(Remap {
                inner,
                work,
                log: marks,
                counts: BoardCounts::zero(),
                image: Image::Unknown,
            }),
            Err(_) => Err(AllocError),
        }
    }
}

impl<N: Nand> Remap<N> {
    /// The inner flash.
    pub fn into_inner(self) -> N
        ensures { result ≡ self.inner }
    {
        let Remap {
            inner,
            work: _,
            log: _,
            counts: _,
            image: _,
        } = self;
        inner
    }

    /// The spare blocks that no block was moved to and that did not fail, by the newest table and the faults since. 0 before
    /// `load` or `make` answered Ok with a shape.
    pub fn spares_left(&self) -> u16
        ensures { result ≡ spares_left_of self.now.image self.now.work }
    {
        if self.is_open() {
            self.work.spares - self.work.taken
        } else {
            0
        }
    }

    /// Whether `load` or `make` answered with a shape.
    pub(crate) fn is_open(&self) -> bool
        ensures { result ≡ is_open_image self.now.image }
    {
        match self.image {
            Image::Unknown => false,
            Image::Missing => false,
            Image::Unsure => true,
            Image::Sure => true,
        }
    }

    /// Counts a refusal of `load` or `make`, and gives it back.
    pub(crate) fn refuse(&mut self, fault: LoadFault) -> LoadFault
        ensures fault { result ≡ fault }
        ensures board { ⟦<Remap<N> as Nand>⟧.state self.new ≡ remap_board self.old.image
            self.old.work self.old.log (with_refusal fault self.old.counts)
            (N.state self.old.inner) }
        ensures inner { self.new.inner ≡ self.old.inner }
        ensures image { self.new.image ≡ self.old.image }
        ensures work { self.new.work ≡ self.old.work }
    {
        self.counts.refused(&fault);
        fault
    }

    /// Whether the newest table is in memory.
    fn is_sure(&self) -> bool
        ensures { result ≡ is_sure_image self.now.image }
    {
        match self.image {
            Image::Unknown => false,
            Image::Missing => false,
            Image::Unsure => false,
            Image::Sure => true,
        }
    }

    /// Takes the newest table into memory, if it is not there.
    pub(crate) fn find_table(&mut self) -> Result<(), NandFault>
        requires { is_open_image self.old.image ≡ true }
        ensures found { FindsTable self.old.work (N.state self.old.inner) result self.new.image
            self.new.work (N.state self.new.inner) }
        ensures calls { AtMostCalls (find_calls self.old.image self.old.work.shape)
            (N.state self.old.inner) (N.state self.new.inner) }
        ensures log { self.new.log ≡ self.old.log }
        ensures counts { self.new.counts ≡ self.old.counts }
    {
        if self.is_sure() {
            Ok(())
        } else {
            self.search_table()
        }
    }

    /// Searches for the newest table, and takes it into memory.
    fn search_table(&mut self) -> Result<(), NandFault>
        requires opened { is_open_image self.old.image ≡ true }
        requires unsure { is_sure_image self.old.image ≡ false }
        ensures found { FindsTable self.old.work (N.state self.old.inner) result self.new.image
            self.new.work (N.state self.new.inner) }
        ensures calls { AtMostCalls (2 * self.old.work.shape.block_pages)
            (N.state self.old.inner) (N.state self.new.inner) }
        ensures log { self.new.log ≡ self.old.log }
        ensures counts { self.new.counts ≡ self.old.counts }
    {
        match self.work.find(&mut self.inner) {
            Ok(true) => {
                self.image = Image::Sure;
                Ok(())
            }
            Ok(false) => unreachable!(),
            Err(_) => Err(NandFault),
        }
    }
}

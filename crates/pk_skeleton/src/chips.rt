//! What a driver of flash parts promises: a page is Erased, Whole or Torn, and each call says what it leaves.
ghost use Rattle.std.specs.Prelude.{◌≡◌, ◌<◌, length, replicate, Option, Some, IfOk, OnOk, OnErr, []};
ghost use Rattle.pk_base.specs.Shape as spec;
ghost use Rattle.pk_base.specs.Page.{Flash, page_at, erased, IsFlash};
ghost use Rattle.pk_base.specs.Mark.{program, erase, after};
ghost use Rattle.pk_nand.specs.BoardState.{shape_or_none};
ghost use Rattle.pk_nand.specs.Cut.{Interrupted};
ghost use Rattle.pk_nand.specs.Operations.{InOrder, filled};
ghost use Rattle.pk_nand.specs.Seen.{answer};

use pk_base::Shape;
use pk_nand::PageRead;

/// A call of a part failed, by its status or by a transfer that broke off.
#[derive(Clone, Copy, Debug, PartialEq, Eq)]
pub struct ChipFault;

/// The flash parts of a board. Their driver numbers pages so that two pages of which a program of the second may tear the first are
/// `2i` and `2i + 1` of a block, and corrects bits below these calls.
pub trait Chips {
    /// The shape of the drive on the parts, if one was made there.
    ghost geometry: { Self → Option spec.Shape };

    /// The pages in order.
    ghost pages: { Self → Flash };

    /// The shape of the drive on the parts, which the driver found when it started. None before a drive is made, and no pages then.
    fn shape(&self) -> Option<Shape>
        ensures value { result ≡ geometry self.now }
        ensures flash { IsFlash (shape_or_none (geometry self.now)) (pages self.now) };

    /// Erases all pages for a drive of this shape. Fails also if the parts have another one.
    fn prepare(&mut self, own: Shape) -> Result<(), ChipFault>
        ensures shape { OnOk result (geometry self.new ≡ Some own) }
        ensures pages { OnOk result (pages self.new ≡ replicate (spec.page_count own) erased) }
        ensures none { OnErr result (geometry self.new ≡ geometry self.old) };

    /// What a page holds. Whole pages fill `into`. A page that is Torn is so at each read.
    fn read(&mut self, page: u32, into: &mut [u8]) -> Result<PageRead, ChipFault>
        requires exists { page < length (pages self.old) }
        requires room { length into.old ≡ (shape_or_none (geometry self.old)).page_bytes }
        ensures found { IfOk result (λ r. r ≡ answer (page_at (pages self.old) page)) }
        ensures bytes { OnOk result (into.new ≡ filled (page_at (pages self.old) page) into.old) }
        ensures same { pages self.new ≡ pages self.old }
        ensures shape { geometry self.new ≡ geometry self.old };

    /// Programs a page, the next Erased one of its block. A program that fails leaves what a cut of it may leave.
    fn program(&mut self, page: u32, bytes: &[u8]) -> Result<(), ChipFault>
        requires exists { page < length (pages self.old) }
        requires full { length bytes.now ≡ (shape_or_none (geometry self.old)).page_bytes }
        requires order { InOrder (shape_or_none (geometry self.old)) (pages self.old) page }
        ensures done { OnOk result (pages self.new
            ≡ after (shape_or_none (geometry self.old)) (program page bytes.now) (pages self.old)) }
        ensures left { OnErr result (Interrupted (shape_or_none (geometry self.old))
            (program page bytes.now) (pages self.old) (pages self.new) []) }
        ensures shape { geometry self.new ≡ geometry self.old };

    /// Erases a block. An erase that fails leaves what a cut of it may leave.
    fn erase(&mut self, block: u32) -> Result<(), ChipFault>
        requires { block < (shape_or_none (geometry self.old)).blocks }
        ensures done { OnOk result (pages self.new
            ≡ after (shape_or_none (geometry self.old)) (erase block) (pages self.old)) }
        ensures left { OnErr result (Interrupted (shape_or_none (geometry self.old)) (erase block)
            (pages self.old) (pages self.new) []) }
        ensures shape { geometry self.new ≡ geometry self.old };
}

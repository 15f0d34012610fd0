//! The two epochs, each read into a write buffer.
ghost use Rattle.std.specs.Prelude.{◌≡◌, length, true, IfOk, IfErr, OnOk};
ghost use Rattle.pk_base.specs.Page.{page_at};
ghost use Rattle.pk_buf.specs.Table.{no_entries};
ghost use Rattle.pk_model.specs.Found.{newest_epoch, older_epoch};
ghost use Rattle.pk_nand.specs.Calls.{IsReady};
ghost use Rattle.pk_nand.specs.Counts.{after_reads};
ghost use Rattle.pk_rootfmt.specs.Root.{is_root};
ghost use Rattle.pk_scan.specs.Board.{StaysReady};
ghost use Rattle.pk_scan.specs.OpeningParts.{PartNotRead, OlderHeld, NewestHeld};
ghost use Rattle.pk_jrn.specs.EpochReads.{epoch_reads};

use crate::errors::PageError;
use crate::namespaces::spaces_under;
use pk_buf::Buffer;
use pk_jrn::{Epoch, ReplayError, replay_in};
use pk_nand::Nand;
use pk_region::Region;
use pk_rootfmt::Root;

/// Reads the older epoch, if the root names one, into an empty write buffer: commit by commit, up to the first that has no page.
/// `Damaged` names the first page that is wrong, or the epoch's first page if it has no entry; `Fault` if a read failed. `buf` has the bytes of a page, which are lost.
pub fn read_older<B: Nand, A: Region>(
    board: &mut B,
    root: &Root<A>,
    into: &mut Buffer<A>,
    buf: &mut [u8],
) -> Result<(), PageError>
    requires ready { IsReady (B.state board.old) root.now.shape }
    requires grammar { is_root root.now.shape root.now.root ≡ true }
    requires empty { into.old ≡ no_entries root.now.shape }
    requires room { length buf.old ≡ root.now.shape.page_bytes }

    // What the epoch holds, and the number of reads.
    ensures held { OnOk result
        (OlderHeld root.now.shape (B.state board.old).pages root.now.root into.new) }
    ensures reads { OnOk result (B.state board.new ≡ after_reads
        (epoch_reads root.now.shape (page_at (B.state board.old).pages) root.now.root.older)
        (B.state board.old)) }

    // Or the reading refuses it, or a read failed.
    ensures err { IfErr result (λ e. PartNotRead
        (older_epoch root.now.shape (page_at (B.state board.old).pages) root.now.root)
        (B.state board.old) (B.state board.new) e) }

    // Either way nothing but reads was done.
    ensures board { StaysReady root.now.shape (B.state board.old) (B.state board.new) }
    ensures buffer { length buf.new ≡ length buf.old }
{
    let shape = *root.shape();
    let spaces = spaces_under(root);
    match root.older() {
        None => Ok(()),
        Some(pair) => match replay_in(board, &shape, spaces, root.epoch() - 1, pair, into, buf) {
            Ok(_) => {
                if into.len() == 0 {
                    let page = pair[0] as u32 * shape.block_pages();
                    return Err(PageError::Damaged { page });
                }
                Ok(())
            }
            Err(ReplayError::Damaged { page }) => Err(PageError::Damaged { page }),
            Err(ReplayError::Fault) => Err(PageError::Fault),
        },
    }
}

/// Reads the newest epoch into an empty write buffer: commit by commit, up to the first that has no page. `Damaged` names the
/// first page that is wrong; `Fault` if a read failed. `buf` has the bytes of a page, which are lost.
pub fn read_newest<B: Nand, A: Region>(
    board: &mut B,
    root: &Root<A>,
    into: &mut Buffer<A>,
    buf: &mut [u8],
) -> Result<Epoch, PageError>
    requires ready { IsReady (B.state board.old) root.now.shape }
    requires grammar { is_root root.now.shape root.now.root ≡ true }
    requires empty { into.old ≡ no_entries root.now.shape }
    requires room { length buf.old ≡ root.now.shape.page_bytes }

    // What the epoch holds, and the number of reads.
    ensures held { IfOk result (λ epoch.
        NewestHeld root.now.shape (B.state board.old).pages root.now.root into.new epoch) }
    ensures reads { OnOk result (B.state board.new ≡ after_reads
        (epoch_reads root.now.shape (page_at (B.state board.old).pages) root.now.root.newest)
        (B.state board.old)) }

    // Or the reading refuses it, or a read failed.
    ensures err { IfErr result (λ e. PartNotRead
        (newest_epoch root.now.shape (page_at (B.state board.old).pages) root.now.root)
        (B.state board.old) (B.state board.new) e) }

    // Either way nothing but reads was done.
    ensures board { StaysReady root.now.shape (B.state board.old) (B.state board.new) }
    ensures buffer { length buf.new ≡ length buf.old }
{
    let shape = *root.shape();
    let number = root.epoch();
    let blocks = root.newest();
    let spaces = spaces_under(root);
    match replay_in(board, &shape, spaces, number, blocks, into, buf) {
        Ok(used) => Ok(Epoch::found(shape, number, blocks, used)),
        Err(ReplayError::Damaged { page }) => Err(PageError::Damaged { page }),
        Err(ReplayError::Fault) => Err(PageError::Fault),
    }
}

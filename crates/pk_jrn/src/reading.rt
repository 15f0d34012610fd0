//! An epoch that is read from a board.
ghost use Rattle.std.specs.Prelude.{◌≡◌, length, IfOk, IfErr, OnOk, OnErr};
ghost use Rattle.pk_base.specs.Page.{page_at};
ghost use Rattle.pk_nand.specs.Calls.{IsReady};
ghost use Rattle.pk_nand.specs.Counts.{after_reads};
ghost use Rattle.pk_buf.specs.Table.{no_entries};
ghost use Rattle.pk_jrn.specs.Epochs.{AllExist, EpochOnFlash, found_at_opening};
ghost use Rattle.pk_jrn.specs.Replays.{Replayed, Refused};
ghost use Rattle.pk_jrn.specs.EpochReads.{epoch_reads};

use crate::entries::take_page;
use crate::error::ReplayError;
use pk_base::{MOST_SPACES, Shape};
use pk_buf::Buffer;
use pk_nand::Nand;
use pk_pair::{commit_page, read_pair};
use pk_region::Region;

/// Reads the commits of an epoch up to the first that has no page that is Whole, by one read each
/// if the first page is Whole and otherwise by two, and writes their entries into an empty write
/// buffer, in which the later entry of a key counts. Returns how many commits have a page. `Damaged` with
/// the first such page that is not the epoch's at its place, that has an entry of another namespace
/// than the first `spaces`, or whose entries bring the keys above those of a write buffer; `Fault` if
/// a read failed. After a refusal the buffer is empty. `buf`
/// has the size of a page and is overwritten.
pub fn replay_in<B: Nand, A: Region>(
    board: &mut B,
    shape: &Shape,
    spaces: u8,
    number: u64,
    blocks: [u16; 2],
    into: &mut Buffer<A>,
    buf: &mut [u8],
) -> Result<u32, ReplayError>
    requires ready { IsReady (B.state board.old) shape.now }
    requires blocks { AllExist shape.now blocks }
    requires empty { into.old ≡ no_entries shape.now }
    requires room { length buf.old ≡ shape.now.page_bytes }

    // The commits that were read, and the number of reads.
    ensures replayed { IfOk result (λ used.
        Replayed shape.now spaces number blocks (B.state board.old).pages used into.new) }
    ensures fits { IfOk result (λ used. EpochOnFlash (found_at_opening shape.now number blocks used)
        (B.state board.old).pages) }
    ensures reads { OnOk result (B.state board.new
        ≡ after_reads (epoch_reads shape.now (page_at (B.state board.old).pages) blocks)
        (B.state board.old)) }

    // Why they were not, and that no entry remains.
    ensures refused { IfErr result (λ e. Refused shape.now spaces number blocks (B.state board.old)
        (B.state board.new) e) }
    ensures cleared { OnErr result (into.new ≡ into.old) }

    // Nothing but reads was done.
    ensures flash { (B.state board.new).pages ≡ (B.state board.old).pages }
    ensures ready { IsReady (B.state board.new) shape.now }
    ensures buffer { length buf.new ≡ length buf.old }
{
    shape.known();
    // so that the numbers of pages are known to fit
    let _ = shape.page_count();
    for index in 0..shape.epoch_commits() {
        match read_pair(board, commit_page(shape, blocks, index), buf) {
            Ok(Some(page)) => {
                if !take_page(shape, spaces, number, index, buf, into) {
                    into.clear();
                    return Err(ReplayError::Damaged { page });
                }
            }
            Ok(None) => return Ok(index),
            Err(_) => {
                into.clear();
                return Err(ReplayError::Fault);
            }
        }
    }
    Ok(shape.epoch_commits())
}

/// Reads an epoch, as `replay_in` does, in a drive with as many namespaces as the format allows.
pub fn replay<B: Nand, A: Region>(
    board: &mut B,
    shape: &Shape,
    number: u64,
    blocks: [u16; 2],
    into: &mut Buffer<A>,
    buf: &mut [u8],
) -> Result<u32, ReplayError>
    requires ready { IsReady (B.state board.old) shape.now }
    requires blocks { AllExist shape.now blocks }
    requires empty { into.old ≡ no_entries shape.now }
    requires room { length buf.old ≡ shape.now.page_bytes }

    // The commits that were read, and the number of reads.
    ensures replayed { IfOk result (λ used.
        Replayed shape.now MOST_SPACES number blocks (B.state board.old).pages used into.new) }
    ensures fits { IfOk result (λ used. EpochOnFlash (found_at_opening shape.now number blocks used)
        (B.state board.old).pages) }
    ensures reads { OnOk result (B.state board.new
        ≡ after_reads (epoch_reads shape.now (page_at (B.state board.old).pages) blocks)
        (B.state board.old)) }

    // Why they were not, and that no entry remains.
    ensures refused { IfErr result (λ e. Refused shape.now MOST_SPACES number blocks (B.state board.old)
        (B.state board.new) e) }
    ensures cleared { OnErr result (into.new ≡ into.old) }

    // Nothing but reads was done.
    ensures flash { (B.state board.new).pages ≡ (B.state board.old).pages }
    ensures ready { IsReady (B.state board.new) shape.now }
    ensures buffer { length buf.new ≡ length buf.old }
{
    replay_in(board, shape, MOST_SPACES, number, blocks, into, buf)
}

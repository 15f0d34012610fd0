//! The steps of a merge of one run into another.
ghost use Rattle.std.specs.Prelude.{◌≡◌, List, OnOk, length};
ghost use Rattle.pk_base.specs.Entry.{Entry as EntrySpec};
ghost use Rattle.pk_nand.specs.Calls.{IsReady};
ghost use Rattle.pk_merge.specs.Jobs.{JobRuns, RunsOn};
ghost use Rattle.pk_test_merges.specs.Opened.{HasOutput, from_run};

use pk_flash::Flash;
use pk_merge::{MergeJob, Source};
use pk_nand::{Fault, Nand};
use pk_pin::PinArena;
use pk_pool::Pool;
use pk_region::Region;
use pk_run::Run;

/// A board that counts its calls.
pub trait Counts: Nand {
    /// Its reads, programs and erases.
    fn calls(&self) -> [u64; 3];
}

impl Counts for Flash {
    fn calls(&self) -> [u64; 3] {
        [self.read_count(), self.program_count(), self.erase_count()]
    }
}

// The next step, and whether it was the last one; None if its read failed. An error if the flash
// stopped.
fn make_step<A: Region, B: Nand>(
    job: &mut MergeJob<A>,
    board: &mut B,
    pool: &mut Pool<A>,
    arena: &mut PinArena<A>,
    source: &Run<A>,
    target: &Run<A>,
) -> Result<Option<bool>, Fault>
    requires ready { IsReady (B.state board.old) target.now.shape }
    requires runs { (es : List EntrySpec) × (fs : List EntrySpec)
        × JobRuns (from_run source.now) target.now job.old pool.old (B.state board.old).pages
        arena.old es fs }
    ensures runs { OnOk result (RunsOn (from_run source.now) target.now job.old pool.old
        (B.state board.old).pages arena.old job.new pool.new (B.state board.new).pages
        arena.new) }
    ensures ready { OnOk result (IsReady (B.state board.new) target.now.shape) }
{
    match job.step(board, pool, arena, Source::Run(source), target) {
        Ok(done) => Ok(Some(done)),
        Err(Fault::Reading) => Ok(None),
        Err(Fault::Stopped) => Err(Fault::Stopped),
    }
}

// What a step did: `r`, `p` or `e` for the one call that it made, `-` for none, `?` for more, and
// `x` for a read that failed.
fn letter(failed: bool, old: [u64; 3], new: [u64; 3]) -> u8 {
    let made = (
        new[0].wrapping_sub(old[0]),
        new[1].wrapping_sub(old[1]),
        new[2].wrapping_sub(old[2]),
    );
    match made {
        (1, 0, 0) if failed => b'x',
        (1, 0, 0) => b'r',
        (0, 1, 0) => b'p',
        (0, 0, 1) => b'e',
        (0, 0, 0) => b'-',
        _ => b'?',
    }
}

/// Makes at most eight steps, up to the last one, and a step whose read failed once more: a letter
/// for each.
pub fn finish<A: Region, B: Counts>(
    job: &mut MergeJob<A>,
    board: &mut B,
    pool: &mut Pool<A>,
    arena: &mut PinArena<A>,
    source: &Run<A>,
    target: &Run<A>,
) -> Result<[u8; 8], Fault>
    requires ready { IsReady (B.state board.old) target.now.shape }
    requires runs { (es : List EntrySpec) × (fs : List EntrySpec)
        × JobRuns (from_run source.now) target.now job.old pool.old (B.state board.old).pages
        arena.old es fs }
    ensures output { OnOk result
        (HasOutput target.now.shape job.new (B.state board.new).pages arena.new) }
    ensures ready { OnOk result (IsReady (B.state board.new) target.now.shape) }
{
    let mut letters = [b' '; 8];
    for i in 0..8usize {
        let old = board.calls();
        match make_step(job, board, pool, arena, source, target) {
            Err(fault) => return Err(fault),
            Ok(done) => {
                letters[i] = letter(done.is_none(), old, board.calls());
                if done == Some(true) {
                    return Ok(letters);
                }
            }
        }
    }
    Ok(letters)
}

/// Reads the first page of a job's output, from its frame if it has one; false if there is none.
pub fn read_output<A: Region, B: Nand>(
    job: &MergeJob<A>,
    board: &mut B,
    arena: &PinArena<A>,
    target: &Run<A>,
    buf: &mut [u8],
) -> bool
    requires ready { IsReady (B.state board.old) target.now.shape }
    requires output { HasOutput target.now.shape job.now (B.state board.old).pages arena.now }
    requires sized { length buf.old ≡ target.now.shape.page_bytes }
{
    let output = job.output();
    output.pages() > 0 && output.load_page(board, arena, 0, buf).is_ok()
}

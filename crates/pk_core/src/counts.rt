//! Counts of reads of a board.
ghost use Rattle.std.specs.Prelude.{◌≡◌, ◌≤◌, ◌<◌, ◌-◌, ◌^◌};
ghost use Rattle.pk_nand.specs.Calls.{last_count};

use pk_nand::Nand;

/// How many pages were read so far. The prover learns here too that the counts of reads and of faults are of 64 bits.
pub(crate) fn reads_so_far<B: Nand>(board: &B) -> u64
    ensures value { result ≡ (B.state board.now).reads }
    ensures last { (B.state board.now).reads ≤ last_count }
    ensures faults { (B.state board.now).read_faults ≤ last_count }
{
    board.read_count()
}

/// How many pages a board read since it had this count of reads.
pub(crate) fn reads_since<B: Nand>(board: &B, before: u64) -> u32
    requires up { before ≤ (B.state board.now).reads }
    requires few { (B.state board.now).reads - before < 2 ^ 32 }
    ensures reads { result ≡ (B.state board.now).reads - before }
    ensures count { (B.state board.now).reads ≤ last_count }
{
    (board.read_count() - before) as u32
}

//! The bytes of a root page.
ghost use Rattle.std.specs.Prelude.{◌≡◌, ◌+◌, ◌-◌, ◌*◌, ◌≤◌, ◌++◌, ◌∷◌, [], length, take, true};
ghost use Rattle.std.specs.List.{flat_map};
ghost use Rattle.pk_base.specs.Fields.{spelled, zeros as zeros_of, u16 as two_bytes, u32 as four_bytes, u64 as eight_bytes};
ghost use Rattle.pk_rootfmt.specs.Root.{root_bytes, is_root, are_limits, limit_bytes, version_of};
ghost use Rattle.pk_rootfmt.specs.Fault.{root_magic};
ghost use Rattle.pk_rootfmt.specs.Held.{first as first_root, first_with, RootReadsBack};

use crate::check::MAGIC;
use crate::copy::put_blocks;
use crate::layout::{LIMITS_BYTES, LIMITS_VERSION, LIST_FROM, SPACES, VERSION};
use pk_base::{ROOT_BLOCKS, Shape, put_text, put_u16, put_u32, put_u64, put_zeros};

/// Writes the entries of the four runs.
fn put_counts(into: &mut [u8], entries: &[u32; 4])
    requires { 56 ≤ length into.old }
    ensures front { take 56 into.new ≡ take 40 into.old ++ flat_map four_bytes entries.now }
    ensures len { length into.new ≡ length into.old }
{
    put_u32(into, 40, entries[0]);
    put_u32(into, 44, entries[1]);
    put_u32(into, 48, entries[2]);
    put_u32(into, 52, entries[3]);
}

/// The version of a root with these limits.
fn version(limits: &[u32]) -> u16
    ensures { result ≡ version_of limits.now }
{
    if limits.is_empty() {
        VERSION
    } else {
        LIMITS_VERSION
    }
}

/// Writes the limits, if there are any; the place after them.
fn put_limits(limits: &[u32], into: &mut [u8]) -> usize
    requires few { length limits.now ≤ SPACES }
    requires room { LIST_FROM + length (limit_bytes limits.now) ≤ length into.old }
    ensures place { result ≡ LIST_FROM + length (limit_bytes limits.now) }
    ensures front { take result into.new ≡ take LIST_FROM into.old ++ limit_bytes limits.now }
    ensures len { length into.new ≡ length into.old }
{
    if limits.is_empty() {
        return LIST_FROM;
    }
    for i in 0..limits.len() {
        put_u32(into, LIST_FROM + 4 * i, limits[i]);
    }
    put_zeros(into, LIST_FROM + 4 * limits.len(), LIST_FROM + LIMITS_BYTES);
    LIST_FROM + LIMITS_BYTES
}

/// Writes what precedes the limits and the blocks.
pub(crate) fn put_numbers(
    shape: &Shape,
    limits: &[u32],
    journal: u16,
    number: u64,
    epoch: u64,
    entries: &[u32; 4],
    into: &mut [u8],
)
    requires few { length limits.now ≤ SPACES }
    requires room { LIST_FROM ≤ length into.old }
    ensures front { take LIST_FROM into.new ≡ spelled (root_magic ∷ two_bytes (version_of limits.now)
        ∷ two_bytes shape.now.block_pages ∷ four_bytes shape.now.page_bytes
        ∷ two_bytes shape.now.blocks ∷ two_bytes journal ∷ four_bytes (length limits.now)
        ∷ eight_bytes number
        ∷ eight_bytes epoch ∷ flat_map four_bytes entries.now ∷ zeros_of 8 ∷ []) }
    ensures len { length into.new ≡ length into.old }
{
    shape.known();
    put_text(into, 0, &MAGIC);
    put_u16(into, 8, version(limits));
    put_u16(into, 10, shape.block_pages() as u16);
    put_u32(into, 12, shape.page_bytes());
    put_u16(into, 16, shape.blocks() as u16);
    put_u16(into, 18, journal);
    put_u32(into, 20, limits.len() as u32);
    put_u64(into, 24, number);
    put_u64(into, 32, epoch);
    put_counts(into, entries);
    put_zeros(into, 56, LIST_FROM);
}

/// Writes a page with these numbers, the limits, the blocks of the epochs and those of the runs.
pub(crate) fn put_page(
    shape: &Shape,
    limits: &[u32],
    epochs: &[u16],
    number: u64,
    epoch: u64,
    entries: &[u32; 4],
    runs: &[u16],
    into: &mut [u8],
)
    requires small { length epochs.now ≤ 4 }
    requires few { length limits.now ≤ SPACES }
    requires fits { LIST_FROM + length (limit_bytes limits.now) + 2 * length epochs.now
        + 2 * length runs.now ≤ length into.old }
    ensures { into.new ≡ spelled (root_magic ∷ two_bytes (version_of limits.now)
        ∷ two_bytes shape.now.block_pages ∷ four_bytes shape.now.page_bytes
        ∷ two_bytes shape.now.blocks ∷ two_bytes (length epochs.now)
        ∷ four_bytes (length limits.now) ∷ eight_bytes number ∷ eight_bytes epoch
        ∷ flat_map four_bytes entries.now ∷ zeros_of 8 ∷ []) ++ limit_bytes limits.now
        ++ flat_map two_bytes epochs.now ++ flat_map two_bytes runs.now
        ++ zeros_of (length into.old - (LIST_FROM + length (limit_bytes limits.now)
        + 2 * length epochs.now + 2 * length runs.now)) }
{
    put_numbers(
        shape,
        limits,
        epochs.len() as u16,
        number,
        epoch,
        entries,
        into,
    );
    let from = put_limits(limits, into);
    put_blocks(into, from, epochs);
    let at = from + 2 * epochs.len();
    put_blocks(into, at, runs);
    let all = into.len();
    put_zeros(into, at + 2 * runs.len(), all);
}

/// The first root without limits is one of the grammar. The function does nothing; its contract
/// says so to a proof.
fn known_first(shape: &Shape)
    ensures { is_root shape.now first_root ≡ true }
{
    shape.known();
}

/// Writes the root page with number 1 and epoch 1 in the two blocks after the root blocks, and with
/// these limits, or with none if there are none; `into` has the size of a page.
pub fn first(shape: &Shape, into: &mut [u8], limits: &[u32])
    requires limits { are_limits shape.now limits.now ≡ true }
    requires sized { length into.old ≡ shape.now.page_bytes }
    ensures bytes { into.new ≡ root_bytes shape.now (first_with limits.now) }
    ensures grammar { is_root shape.now (first_with limits.now) ≡ true }
{
    shape.known();
    known_first(shape);
    put_page(
        shape,
        limits,
        &[ROOT_BLOCKS as u16, ROOT_BLOCKS as u16 + 1],
        1,
        1,
        &[0, 0, 0, 0],
        &[],
        into,
    );
}

/// The page of a root of the grammar is read as the root.
pub fn reads_back()
    ensures { RootReadsBack }
{}

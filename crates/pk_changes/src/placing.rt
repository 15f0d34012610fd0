//! Where a value goes: the next pages of the open block.
ghost use Rattle.std.specs.Prelude.{◌≡◌, ◌≤◌, length, true, false, IfOk, IfErr, OnOk, OnErr};
ghost use Rattle.pk_parts.specs.Parts.{pages_for};
ghost use Rattle.pk_base.specs.Shape as spec;
ghost use Rattle.pk_nand.specs.Calls.{IsReady};
ghost use Rattle.pk_nand.specs.declared.types.Fault.TheVariants.{Stopped};
ghost use Rattle.pk_values.specs.State.{needs_reclaim as needs_reclaim_for, fits_open};
ghost use Rattle.pk_values.specs.Placed.{HasPlaced};
ghost use Rattle.pk_parts.specs.Moves.{MayStep};
ghost use Rattle.pk_changes.specs.Noting.{StepPlaces};
ghost use Rattle.pk_changes.specs.Placing.{PlacesValue, FailsToPlace};
ghost use Rattle.pk_parts.specs.Staying.{StaysOrOpens};
ghost use Rattle.pk_changes.specs.Programming.{Programs};
ghost use Rattle.pk_background.specs.Costs.{place_calls};
ghost use Rattle.pk_call.specs.Calling.{FewCalls};

use pk_base::{Key, Shape};
use pk_nand::{Fault, Nand};
use pk_parts::Parts;
use pk_pool::Pool;
use pk_region::Region;
use pk_seg::write_value;
use pk_values::Values;

/// Writes a value into the next pages of the open block, and returns the first one; if it has no
/// room, the block is closed and another one opened first. `Stopped` if a flash operation fails.
/// `buf` has the size of a page and is overwritten.
pub fn write_next<B: Nand, A: Region>(
    values: &mut Values<A>,
    pool: &mut Pool<A>,
    board: &mut B,
    shape: &Shape,
    key: &Key,
    value: &[u8],
    buf: &mut [u8],
) -> Result<u32, Fault>
    // The board, the value and the parts.
    requires ready { IsReady (B.state board.old) shape.now }
    requires short { length value.now ≤ spec.greatest shape.now }
    requires placed { HasPlaced shape.now values.old pool.old (B.state board.old).pages }
    requires room { needs_reclaim_for shape.now values.old pool.old
        (spec.charge shape.now (length value.now)) ≡ false }
    requires page { length buf.old ≡ shape.now.page_bytes }

    // The pages that were written.
    ensures places { IfOk result (λ page. PlacesValue shape.now key.now value.now
        values.old pool.old (B.state board.old) page values.new pool.new (B.state board.new)) }
    ensures stopped { IfErr result (λ e. e ≡ Stopped) }
    ensures fails { OnErr result (FailsToPlace shape.now key.now value.now
        values.old pool.old (B.state board.old) (B.state board.new)) }

    // What is unchanged.
    ensures ready { IsReady (B.state board.new) shape.now }
    ensures buffer { length buf.new ≡ length buf.old }
{
    shape.known();
    let _ = shape.greatest();
    let count = shape.charge(value.len() as u32);
    match values.reserve(board, shape, pool, count) {
        Ok(page) => match write_value(board, shape, page, key, value, buf) {
            Ok(()) => {
                values.wrote(shape, count);
                Ok(page)
            }
            Err(fault) => Err(fault),
        },
        Err(fault) => Err(fault),
    }
}

/// Writes a value of a key, whose map does not have it yet, and returns its first page.
/// `Stopped` if a flash operation fails.
pub(crate) fn place_value<B: Nand, A: Region>(
    parts: &mut Parts<A>,
    board: &mut B,
    key: &Key,
    value: &[u8],
) -> Result<u32, Fault>
    requires may { MayStep parts.old (B.state board.old) }
    requires short { length value.now ≤ spec.greatest parts.old.log.shape }
    requires room { needs_reclaim_for parts.old.log.shape parts.old.values parts.old.pool
        (pages_for parts.old value.now) ≡ false }

    // The pages that were written.
    ensures step { StepPlaces parts.old parts.new (B.state board.old) (B.state board.new)
        key.now value.now result }
    ensures rest { parts.new ≡ record parts.old
        { values = parts.new.values; pool = parts.new.pool } }
    ensures opens { OnOk result (StaysOrOpens parts.old parts.new
        (pages_for parts.old value.now)) }
    ensures programs { OnOk result (fits_open parts.old.log.shape parts.old.values
        (pages_for parts.old value.now) ≡ true
        → Programs (pages_for parts.old value.now) (B.state board.old)
        (B.state board.new)) }
    ensures calls { FewCalls (place_calls (pages_for parts.old value.now))
        (B.state board.old) (B.state board.new) }
{
    let shape = parts.shape();
    let _ = key.bytes();
    parts.pool.known();
    write_next(
        &mut parts.values,
        &mut parts.pool,
        board,
        &shape,
        key,
        value,
        &mut parts.page,
    )
}

//! Values in the order of the reading of a flash.
ghost use Rattle.std.specs.Prelude.{◌≡◌, ◌++◌, ◌∷◌, [], List, length, OnOk, IfErr};
ghost use Rattle.pk_base.specs.Key.{Key as KeySpec};
ghost use Rattle.pk_base.specs.Shape as spec;
ghost use Rattle.pk_base.specs.Entry.{Place};
ghost use Rattle.pk_base.specs.EntryChecks.{IsPlace};
ghost use Rattle.pk_nand.specs.Calls.{IsReady};
ghost use Rattle.pk_nand.specs.Counts.{after_reads};
ghost use Rattle.pk_live.specs.Lives.{Lives};
ghost use Rattle.pk_scan.specs.Accepted.{Accepted, NotAccepted};
ghost use Rattle.pk_scan.specs.Adopts.{owned_blocks};
ghost use Rattle.pk_scan.specs.Used.{IsUseOf, held_limits};
ghost use Rattle.pk_scan.specs.Board.{StaysReady};

use crate::errors::PageError;
use crate::taken::take_value;
use crate::values::check_value;
use pk_base::{Key, Place, Shape};
use pk_live::Live;
use pk_nand::Nand;
use pk_pool::Pool;
use pk_rootfmt::Root;
use pk_space::Use;
use std::alloc::Allocator;

/// A root, and the pool in which the blocks that it names have their owners.
#[derive(Drop)]
pub struct Named<'a, A: Allocator> {
    pub root: &'a Root<A>,
    pub pool: &'a Pool<A>,
}

/// Takes the pages of a value and checks them: one step of the reading of a flash, whose earlier
/// values `live` represents and `spaces` counts, of a drive with this root. `buf` has the size of a
/// page and is overwritten.
///
/// `Damaged` names the first page of a value whose pages may not be taken, before any read, or the
/// first page that is wrong. `Fault` if a read failed. After either the live map represents
/// nothing.
pub fn accept_value<B: Nand, A: Allocator>(
    board: &mut B,
    shape: &Shape,
    named: &Named<A>,
    live: &mut Live<A>,
    spaces: &mut Use,
    key: &Key,
    place: Place,
    buf: &mut [u8],
) -> Result<(), PageError>
    requires ready { IsReady (B.state board.old) shape.now }
    requires place { IsPlace shape.now place }
    requires lives { (taken : List (KeySpec × Place))
        × Lives shape.now (owned_blocks named.now.pool.now) live.old taken
        × IsUseOf shape.now spaces.old taken }
    requires room { length buf.old ≡ shape.now.page_bytes }

    // The reading finds the value after those that were taken, and the live map represents it too.
    ensures accepted { OnOk result ((taken : List (KeySpec × Place))
        → Lives shape.now (owned_blocks named.now.pool.now) live.old taken
        → IsUseOf shape.now spaces.old taken
        → Accepted shape.now (B.state board.old).pages
        (held_limits named.now.root.now) (owned_blocks named.now.pool.now) taken key.now place) }
    ensures lives { OnOk result ((taken : List (KeySpec × Place))
        → Lives shape.now (owned_blocks named.now.pool.now) live.old taken
        → Lives shape.now (owned_blocks named.now.pool.now) live.new
        (taken ++ (key.now, place) ∷ [])) }

    ensures used { OnOk result ((taken : List (KeySpec × Place))
        → IsUseOf shape.now spaces.old taken
        → IsUseOf shape.now spaces.new (taken ++ (key.now, place) ∷ [])) }

    // It refuses with the page that is answered.
    ensures err { IfErr result (λ e. (taken : List (KeySpec × Place))
        → Lives shape.now (owned_blocks named.now.pool.now) live.old taken
        → IsUseOf shape.now spaces.old taken
        → NotAccepted shape.now (B.state board.old) (B.state board.new)
        (held_limits named.now.root.now) (owned_blocks named.now.pool.now) taken key.now place e) }

    // Nothing but its pages is read.
    ensures ok { OnOk result
        (B.state board.new ≡ after_reads (spec.charge shape.now place.len) (B.state board.old)) }
    ensures board { StaysReady shape.now (B.state board.old) (B.state board.new) }
    ensures buffer { length buf.new ≡ length buf.old }
{
    if !take_value(shape, named.root, named.pool, live, spaces, key, place) {
        return Err(PageError::Damaged { page: place.page });
    }
    match check_value(board, shape, key, place, buf) {
        Ok(()) => Ok(()),
        Err(error) => Err(error),
    }
}

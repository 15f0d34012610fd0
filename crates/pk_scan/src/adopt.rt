//! Blocks that the pool gives their owners at opening.
ghost use Rattle.std.specs.Prelude.{◌≡◌, ◌≤◌, ◌-◌, ◌++◌, List, length, true, false, count_by, slice_index_or};
ghost use Rattle.std.specs.List.{concat};
ghost use Rattle.pk_base.specs.Key.{Key};
ghost use Rattle.pk_base.specs.Shape.{data_blocks};
ghost use Rattle.pk_base.specs.Entry.{Place};
ghost use Rattle.pk_plan.specs.declared.owner.Owner.TheVariants.{Journal, Meta, Values};
ghost use Rattle.pk_pool.specs.Blocks.{used_by, unused};
ghost use Rattle.pk_rootfmt.specs.Root as spec;
ghost use Rattle.pk_rootfmt.specs.Root.{named, is_root};
ghost use Rattle.pk_live.specs.Lives.{Lives};
ghost use Rattle.pk_scan.specs.Adopts.{is_among, Adopts, NamesOwned, MayAdopt};

use pk_live::Live;
use pk_pool::{Owner, Pool};
use pk_rootfmt::Root;
use std::alloc::Allocator;

// Makes these blocks the owner's.
fn adopt_all<A: Allocator>(pool: &mut Pool<A>, blocks: &[u16], owner: Owner)
    requires { MayAdopt owner blocks.now pool.old }
    ensures { Adopts owner (is_among blocks.now) (length blocks.now) pool.old pool.new }
{
    for block in blocks {
        pool.adopt(*block as u32, owner);
    }
}

// Makes the blocks of the epochs the journal's.
fn adopt_epochs<A: Allocator>(pool: &mut Pool<A>, root: &Root<A>)
    requires two { length root.now.root.newest ≡ 2 }
    requires may { MayAdopt Journal (root.now.root.newest ++ root.now.root.older) pool.old }
    ensures { Adopts Journal (is_among (root.now.root.newest ++ root.now.root.older))
        (length (root.now.root.newest ++ root.now.root.older)) pool.old pool.new }
{
    adopt_all(pool, &root.newest(), Owner::Journal);
    match root.older() {
        Some(older) => adopt_all(pool, &older, Owner::Journal),
        None => {}
    }
}

// Makes the blocks of the runs meta blocks.
fn adopt_runs<A: Allocator>(pool: &mut Pool<A>, root: &Root<A>)
    requires four { length root.now.root.runs ≡ 4 }
    requires may { MayAdopt Meta (concat root.now.root.runs) pool.old }
    ensures { Adopts Meta (is_among (concat root.now.root.runs))
        (length (concat root.now.root.runs)) pool.old pool.new }
{
    for i in 0..4u8 {
        adopt_all(pool, root.blocks(i + 1), Owner::Meta);
    }
}

/// Makes the blocks that the root names their owners': those of the epochs the journal's, those of the runs meta blocks. The
/// pool is as it is made, so that they are free.
pub fn adopt_blocks<A: Allocator>(pool: &mut Pool<A>, root: &Root<A>)
    requires unused { pool.old ≡ unused root.now.shape }
    requires root { is_root root.now.shape root.now.root ≡ true }
    ensures named { NamesOwned root.now.root pool.old pool.new }
    ensures journal { used_by Journal pool.new.states
        ≡ length (root.now.root.newest ++ root.now.root.older) }
    ensures meta { used_by Meta pool.new.states ≡ length (concat root.now.root.runs) }
    ensures values { used_by Values pool.new.states ≡ 0 }
{
    root.shape().known();
    adopt_epochs(pool, root);
    adopt_runs(pool, root);
}

/// Makes the blocks that have a live page the values'. The live map represents values in none of
/// the blocks that the root names, whose blocks have their owners; so they are free, and leave the
/// owner at least one more block.
pub fn adopt_values<A: Allocator>(pool: &mut Pool<A>, live: &Live<A>)
    requires named { (root : spec.Root) × (taken : List (Key × Place))
        × NamesOwned root (unused pool.old.shape) pool.old
        × Lives pool.old.shape (named root) live.now taken }
    ensures adopted { Adopts Values (λ b. slice_index_or live.now.closed b false)
        (count_by (λ b. b) live.now.closed) pool.old pool.new }
    ensures counted { used_by Values pool.new.states ≡ count_by (λ b. b) live.now.closed }
    ensures few { used_by Values pool.new.states ≤ data_blocks pool.old.shape - 1 }
{
    pool.known();
    live.known();
    for block in 0..pool.blocks() {
        if live.is_closed(block) {
            pool.adopt(block, Owner::Values);
        }
    }
}

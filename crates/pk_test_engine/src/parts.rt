//! Parts of an engine that take memory of their own when they are made, and none afterwards.
ghost use Rattle.std.specs.Prelude.{◌≡◌, ◌∷◌, false, IfOk};
ghost use Rattle.pk_base.specs.Fields.{AreBytes};
ghost use Rattle.pk_base.specs.Key.{IsKey};

use linked_list_allocator::LocalHeap;
use pk_base::{Entry, Key, Shape};
use pk_buf::Buffer;
use pk_gc::ReclaimJob;
use pk_jrn::Epoch;
use pk_level::Levels;
use pk_log::Log;
use pk_merge::MergeJob;
use pk_plan::Plan;
use pk_pool::Pool;
use pk_region::Region;
use pk_rootfmt::Root;
use pk_run::Run;
use pk_walk::Walk;
use std::alloc::AllocError;

/// The parts.
#[derive(Clone, Copy)]
pub enum Part {
    /// Who has which block.
    Pool,
    /// The four runs, and one that is installed.
    Levels,
    Walk,
    Merge,
    Reclaim,
    /// A log, with its root and its two buffers, that is filled.
    Log,
}

/// Makes a part in this heap and uses it: how much of the heap is in use when it was made, and
/// afterwards.
pub fn made_in(heap: &LocalHeap, shape: Shape, part: Part) -> Result<[usize; 2], AllocError> {
    match part {
        Part::Pool => pool_in(heap, shape),
        Part::Levels => levels_in(heap, shape),
        Part::Walk => walk_in(heap, shape),
        Part::Merge => merge_in(heap, shape),
        Part::Reclaim => reclaim_in(heap, shape),
        Part::Log => log_in(heap, shape),
    }
}

fn pool_in(heap: &LocalHeap, shape: Shape) -> Result<[usize; 2], AllocError> {
    let _pool = Pool::new(heap, Plan::of(shape))?;
    Ok([heap.used(); 2])
}

fn levels_in(heap: &LocalHeap, shape: Shape) -> Result<[usize; 2], AllocError> {
    let mut levels = Levels::new(heap, Plan::of(shape), 8)?;
    let run = Run::new(heap, shape, 2)?;
    let used = heap.used();
    let _former = levels.install_run(2, run);
    Ok([used, heap.used()])
}

fn walk_in(heap: &LocalHeap, shape: Shape) -> Result<[usize; 2], AllocError> {
    let mut walk = Walk::new(heap, shape)?;
    let used = heap.used();
    walk.start(None);
    Ok([used, heap.used()])
}

fn merge_in(heap: &LocalHeap, shape: Shape) -> Result<[usize; 2], AllocError> {
    let _job = MergeJob::new(heap, Plan::of(shape), 8)?;
    Ok([heap.used(); 2])
}

fn reclaim_in(heap: &LocalHeap, shape: Shape) -> Result<[usize; 2], AllocError> {
    let _job = ReclaimJob::new(heap, shape)?;
    Ok([heap.used(); 2])
}

fn log_in(heap: &LocalHeap, shape: Shape) -> Result<[usize; 2], AllocError> {
    let mut log = empty_log(heap, shape)?;
    let used = heap.used();
    fill(&mut log);
    Ok([used, heap.used()])
}

// A log without entries, whose epoch has no commit.
fn empty_log<A: Region>(alloc: A, shape: Shape) -> Result<Log<A>, AllocError>
    ensures whole { IfOk result (λ l. l.epoch.half ≡ false) }
{
    let root = Root::new(alloc, shape)?;
    let active = Buffer::new(alloc, shape)?;
    let frozen = Buffer::new(alloc, shape)?;
    Log::new(
        alloc,
        root,
        0,
        Epoch::start(shape, 1, [2, 3]),
        active,
        frozen,
    )
}

// Deletes keys, up to the first that needs a commit before it.
fn fill<A: Region>(log: &mut Log<A>)
    requires whole { log.old.epoch.half ≡ false }
{
    for i in 0..20u8 {
        delete(log, &[i]);
    }
}

// Adds an entry that deletes the key, unless that needs a freeze or a commit before it.
fn delete<A: Region>(log: &mut Log<A>, bytes: &[u8])
    requires key { IsKey (1 ∷ bytes.now) }
    requires whole { log.old.epoch.half ≡ false }
    ensures whole { log.new.epoch.half ≡ false }
{
    let key = Key::of(1, bytes);
    if log.pending() < log.root().shape().entries() && !log.needs_freeze(&key) {
        known(bytes);
        log.push(Entry::Gone { key });
    }
}

// What memory holds are bytes.
fn are_bytes(bytes: &[u8])
    ensures { AreBytes bytes.now }
{
    let _ = bytes;
}

// So are a namespace and they.
fn known(bytes: &[u8])
    ensures { AreBytes (1 ∷ bytes.now) }
{
    are_bytes(bytes);
}

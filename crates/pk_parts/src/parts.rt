//! The parts of a drive.
ghost use Rattle.std.specs.Prelude.{◌≡◌, length};
ghost use Rattle.pk_parts.specs.Parts.{IsParts};
ghost use Rattle.pk_parts.specs.Stopping.{failed_by};

use pk_base::Shape;
use pk_gc::ReclaimJob;
use pk_level::Levels;
use pk_log::Log;
use pk_nand::Fault;
use pk_pin::PinArena;
use pk_pool::Pool;
use pk_region::Region;
use pk_schedule::Schedule;
use pk_space::Use;
use pk_values::Values;
use pk_walk::Walk;
use std::marker::Model;

/// The parts of a drive. Contracts see them as a record, and `DriveOnFlash` says how they match a
/// flash. No call but `over` takes memory.
///
/// Only `pk_background` and `pk_changes` write the fields that are public, and each function that
/// writes one proves the invariant again. All others use the methods.
pub struct Parts<A: Region> {
    /// The log: the newest root, its epoch, both buffers and the pending entries.
    pub log: Log<A>,
    /// The runs.
    pub levels: Levels<A>,
    /// The frames of the pages that are cached.
    pub arena: PinArena<A>,
    /// The merge and the freeze.
    pub schedule: Schedule<A>,
    /// Where the values are, and the open block.
    pub values: Values<A>,
    /// The reclaim.
    pub reclaim: ReclaimJob<A>,
    /// The owners of the blocks.
    pub pool: Pool<A>,
    /// The live pages and the keys of each namespace.
    pub spaces: Use,
    /// A program or an erase failed: the drive refuses every later call. Set by `fail` alone.
    pub(crate) stopped: bool,
    /// A buffer of the bytes of a page.
    pub page: Vec<u8, A>,
    /// The walk of a List.
    pub(crate) walk: Walk<A>,
}

// Written out, so that whoever drops one meets a call, and not the drops of all its parts.
impl<A: Region> Drop for Parts<A> {
    fn drop(self) {
        let Parts {
            log: _,
            levels: _,
            arena: _,
            schedule: _,
            values: _,
            reclaim: _,
            pool: _,
            spaces: _,
            stopped: _,
            page: _,
            walk: _,
        } = self;
    }
}

impl<A: Region> Model for Parts<A> {
    ghost use Rattle.std.specs.Prelude.{◌≡◌, length};
    ghost use Rattle.pk_parts.specs.Parts as spec;

    ghost Value = { spec.Parts };

    ghost view = { λ d. record {
      log = d.log;
      levels = d.levels;
      arena = d.arena;
      schedule = d.schedule;
      values = d.values;
      reclaim = d.reclaim;
      pool = d.pool;
      spaces = d.spaces;
      stopped = d.stopped;
      walk = d.walk;
    } };

    ghost invariant = { λ d. (length d.page.items ≡ d.log.shape.page_bytes) × (d.walk.shape
        ≡ d.log.shape) };
}

impl<A: Region> Parts<A> {
    /// The shape of the flash.
    pub fn shape(&self) -> Shape
        ensures { result ≡ self.now.log.shape }
    {
        *self.log.root().shape()
    }

    /// Blocks 0 and 1 alone are the root blocks, each owner of blocks keeps within its quota, and
    /// each run within its level.
    pub fn known(&self)
        ensures { IsParts self.now }
    {
        self.pool.known();
        self.levels.known();
    }

    /// How many entries wait for a commit.
    pub fn pending(&self) -> u32
        ensures { result ≡ length self.now.log.pending }
    {
        self.log.pending()
    }

    /// The number of the newest root.
    pub fn root_number(&self) -> u64
        ensures { result ≡ self.now.log.root.number }
    {
        self.log.root().number()
    }

    /// Whether a call failed that stops the drive.
    pub fn is_stopped(&self) -> bool
        ensures { result ≡ self.now.stopped }
    {
        self.stopped
    }

    /// A flash operation failed with this fault; one that is not a read stops the drive.
    pub fn fail(&mut self, fault: Fault) -> Fault
        ensures same { result ≡ fault }
        ensures rest { self.new ≡ failed_by self.old fault }
    {
        match fault {
            Fault::Reading => Fault::Reading,
            Fault::Stopped => {
                self.stopped = true;
                Fault::Stopped
            }
        }
    }
}

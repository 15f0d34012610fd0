//! What opening finds, and what it reads into.

use pk_buf::Buffer;
use pk_jrn::Epoch;
use pk_level::Levels;
use pk_live::Live;
use pk_pin::PinArena;
use pk_pool::Pool;
use pk_region::Region;
use pk_rootfmt::Root;
use pk_space::Use;
use pk_walk::Walk;

/// All that is on a flash, in memory.
#[derive(Drop)]
pub struct Found<A: Region> {
    /// The newest root.
    pub root: Root<A>,
    /// The page of the newest root.
    pub root_page: u32,
    /// The entries of the newest epoch.
    pub active: Buffer<A>,
    /// The entries of the older epoch; none if the root names none.
    pub frozen: Buffer<A>,
    /// The four runs.
    pub levels: Levels<A>,
    /// The frames, with the pages of the runs whose levels are pinned.
    pub arena: PinArena<A>,
    /// The pages of the values of all keys that exist, and the blocks in which they lie.
    pub live: Live<A>,
    /// The blocks, of which those of the epochs, the runs and the values have their owners.
    pub pool: Pool<A>,
    /// The newest epoch, which takes no more pages.
    pub epoch: Epoch,
    /// The live pages and the keys of each namespace.
    pub spaces: Use,
}

/// What opening reads into, and what it works with.
#[derive(Drop)]
pub struct Memory<A: Region> {
    /// What is found.
    pub found: Found<A>,
    /// The walk over all keys that exist.
    pub walk: Walk<A>,
    /// The bytes of a page.
    pub page: Vec<u8, A>,
}

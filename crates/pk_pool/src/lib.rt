//! The pool of blocks: three owners with quotas. A block that is owned is never allocated, and each
//! block is erased in this session before it is allocated, so that all its pages are Erased.
#![tactic(auto)]

mod laws;
mod pool;
mod state;

pub use laws::{
    blocks_not_ready, blocks_that_leave, changes_elsewhere, erase_elsewhere, erased_in_order,
    program_elsewhere,
};
pub use pk_plan::Owner;
pub use pool::Pool;
pub use state::BlockState;

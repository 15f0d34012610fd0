//! What a block is to the pool.
use pk_plan::Owner;

/// What a block is to the pool. A root block never has an owner here. A ready block is free, and
/// was erased in this session since it last had an owner; a free one was not. A block that leaves
/// still counts as its owner's and is not allocated, until all blocks that leave are freed
/// together.
#[derive(Clone, Copy, Debug, PartialEq, Eq)]
pub enum BlockState {
    Root,
    Free,
    Ready,
    Owned(Owner),
    Leaving(Owner),
}

//! What merges leave of the blocks that nobody reads, and what a job may do to them.
ghost use Rattle.pk_compact.specs.Laws.{ApartMerged, ProgramUnread, EraseUnread};

/// After a merge no spare block is read, also if the blocks that it no longer needs were freed.
pub fn merged()
    ensures { ApartMerged }
{}

/// In a block that nobody reads a page may be programmed, and the block may be erased.
pub fn unread()
    ensures programs { ProgramUnread }
    ensures erases { EraseUnread }
{}

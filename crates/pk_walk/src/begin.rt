//! Where in a run a walk begins.
ghost use Rattle.std.specs.Prelude.{◌≡◌, Bool, List, drop};
ghost use Rattle.pk_base.specs.Key.{Key as KeySpec};
ghost use Rattle.pk_base.specs.Entry.{Entry as EntrySpec};
ghost use Rattle.pk_base.specs.Page.{Flash};
ghost use Rattle.pk_pin.specs.Frames.{Frames};
ghost use Rattle.pk_run.specs.Kept.{RunOnFlash};
ghost use Rattle.pk_walk.specs.Visible.{is_wanted, wanted, WantsFrom};
ghost use Rattle.pk_walk.specs.Walking.{SkipsNoPage};

use crate::position::Position;
use pk_base::Key;
use pk_run::Run;
use std::alloc::Allocator;

/// The place in a run before which no key is wanted from this position on: if a walk begins at a
/// key, the start of the page that may have it, otherwise the first place. After its first step a
/// walk has reached a page of each run that has one, and its cursors are where it goes on.
pub fn begins_at<A: Allocator>(run: &Run<A>, position: &Position) -> u32
    ensures begins { (flash : Flash) (arena : Frames) (es : List EntrySpec)
        → RunOnFlash run.now flash arena es → wanted (is_wanted position.now) es
        ≡ wanted (is_wanted position.now) (drop result es) }
    ensures first { SkipsNoPage position.now → result ≡ 0 }
{
    match position {
        Position::First => 0,
        Position::From(key) => page_start(run, key),
        Position::Above(_) => 0,
    }
}

/// The first place of the page that may have the key, or of all.
fn page_start<A: Allocator>(run: &Run<A>, key: &Key) -> u32
    ensures { (is_one : KeySpec → Bool) → WantsFrom is_one key.now
        → (flash : Flash) (arena : Frames) (es : List EntrySpec) → RunOnFlash run.now flash arena es
        → wanted is_one es ≡ wanted is_one (drop result es) }
{
    run.known();
    match run.page_for(key) {
        None => 0,
        Some(p) => p * run.shape().entries(),
    }
}

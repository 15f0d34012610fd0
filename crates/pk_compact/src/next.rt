//! The root that follows.
ghost use Rattle.std.specs.Prelude.{◌≡◌, ◌≤◌, ◌<◌, [], length, if◌then◌else◌};
ghost use Rattle.pk_rootfmt.specs.Root.{last_number};
ghost use Rattle.pk_rootfmt.specs.Held.{blocks_or_none};
ghost use Rattle.pk_compact.specs.Steps.{next_root};

use pk_rootfmt::Root;
use std::alloc::Allocator;

// The blocks of the older epoch after a freeze: those of the newest one, if it has entries.
fn older<A: Allocator>(root: &Root<A>, has_entries: bool) -> Option<[u16; 2]>
    requires { length root.now.root.newest ≡ 2 }
    ensures { blocks_or_none result ≡ (if has_entries then root.now.root.newest else []) }
{
    if has_entries {
        return Some(root.newest());
    }
    None
}

/// Makes the root the next one: an empty epoch in these blocks, and the former one as the older if
/// it has entries.
pub(crate) fn follow<A: Allocator>(root: &mut Root<A>, blocks: [u16; 2], has_entries: bool)
    requires number { root.old.root.number < last_number }
    requires epoch { root.old.root.epoch ≤ root.old.root.number }
    requires newest { length root.old.root.newest ≡ 2 }
    ensures { root.new ≡ record root.old { root = next_root root.old.root blocks has_entries } }
{
    let number = root.number() + 1;
    let epoch = root.epoch() + 1;
    let older = older(root, has_entries);
    root.set_number(number);
    root.set_epochs(epoch, blocks, older);
}

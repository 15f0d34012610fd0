//! Which levels may have frames besides the pinned ones: as many of the next ones as have room in
//! the frames that the pinned ones don't need.
#![tactic(auto)]

ghost use Rattle.std.specs.Prelude.{◌≡◌, ◌≤◌, ◌-◌};
ghost use Rattle.pk_base.specs.Shape.{need, pinned};
ghost use Rattle.pk_adapt.specs.Adapted.{adapted, IsAdapted};

use pk_base::LEVELS;
use pk_plan::Plan;

/// The last level that may have frames: the greatest one up to which all pages of the levels below
/// the pinned ones fit into the frames that these don't need. `pages` has the number of pages of
/// each of the four levels.
pub fn adapted(plan: &Plan, frames: u32, pages: &[u32; 4]) -> u8
    ensures value { result ≡ adapted plan.now frames pages.now }
    ensures greatest { IsAdapted plan.now frames pages.now result }
{
    let pinned = plan.pinned(frames);
    let mut room = spare(plan, frames, pinned);
    let mut level = pinned;
    while level < LEVELS {
        let next = pages[level as usize];
        if next > room {
            return level;
        }
        room -= next;
        level += 1;
    }
    level
}

// The frames that the pinned levels don't need.
fn spare(plan: &Plan, frames: u32, levels: u8) -> u32
    requires pinned { levels ≡ pinned plan.now frames }
    requires most { levels ≤ LEVELS }
    ensures { result ≡ frames - need plan.now levels }
{
    frames - plan.need(levels)
}

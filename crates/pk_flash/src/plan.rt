//! Which call is to fail.
ghost use Rattle.std.specs.Prelude.{◌≡◌, option_copied};
ghost use Rattle.pk_flash.specs.Plan.{planned_left};

use crate::types::{Left, Planned};

/// What the call with this number is to leave, if it is to fail; of several plans for it the last.
pub fn planned(plan: &Vec<Planned>, call: u64) -> Option<&Left>
    ensures { option_copied result ≡ planned_left plan.now.items call }
{
    let mut found = None;
    for next in plan {
        if next.call == call {
            found = Some(&next.left);
        }
    }
    found
}

//! The namespaces of a drive with a root: how many there are, and their limits.
ghost use Rattle.std.specs.Prelude.{◌≡◌, ◌≤◌};
ghost use Rattle.pk_model.specs.RootLimits.{root_spaces};
ghost use Rattle.pk_model.specs.Spaces.{limit_of};
ghost use Rattle.pk_scan.specs.Used.{held_limits};

use pk_rootfmt::Root;
use std::alloc::Allocator;

/// How many namespaces a drive with this root has.
#[tactic(auto, unfolding(pk_model::specs::RootLimits::root_limits))]
pub(crate) fn spaces_under<A: Allocator>(root: &Root<A>) -> u8
    ensures { result ≡ root_spaces root.now.shape root.now.root }
{
    root.spaces()
}

/// The limit of this namespace of a drive with this root, in pages; namespaces are numbered from 1
/// on.
#[tactic(auto, unfolding(pk_model::specs::RootLimits::root_limits))]
pub(crate) fn limit_under<A: Allocator>(root: &Root<A>, space: u8) -> u32
    requires { 1 ≤ space × space ≤ root_spaces root.now.shape root.now.root }
    ensures { result ≡ limit_of (held_limits root.now) space }
{
    root.space_limit(space)
}

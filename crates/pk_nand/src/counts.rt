//! Counts that stay at their last value.
ghost use Rattle.std.specs.Prelude.{◌≡◌};
ghost use Rattle.pk_nand.specs.Calls.{counted};

/// One more, up to the last value.
#[inline(always)]
pub fn raise(count: &mut u64)
    ensures { count.new ≡ counted count.old }
{
    *count = count.saturating_add(1);
}

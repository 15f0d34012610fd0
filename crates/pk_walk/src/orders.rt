//! How the first wanted entries of a walk's sources compare with each other, and what of it is kept
//! from one key to the next.
ghost use Rattle.std.specs.Prelude.{◌≡◌, ◌∷◌, [], IfSome, Some, None};
ghost use Rattle.pk_walk.specs.Heads.{entry_in, order_of, seen_head};
ghost use Rattle.pk_walk.specs.Orders.{EachKept, as_list, no_orders};
ghost use Rattle.pk_walk.specs.Steps.{AreOrders};

use crate::head::{Head, lower, order};
use std::cmp::Ordering;

/// How the first wanted entry of each source but the active buffer compares with the least of those
/// before it.
#[derive(Clone, Copy)]
pub struct Orders {
    pub frozen: Ordering,
    pub first: Ordering,
    pub second: Ordering,
    pub third: Ordering,
    pub fourth: Ordering,
}

/// Those of them that hold for the next key as well: neither that source nor one before it went on.
#[derive(Clone, Copy)]
pub struct KeptOrders {
    pub frozen: Option<Ordering>,
    pub first: Option<Ordering>,
    pub second: Option<Ordering>,
    pub third: Option<Ordering>,
    pub fourth: Option<Ordering>,
}

impl KeptOrders {
    /// Nothing is kept.
    pub fn none() -> KeptOrders
        ensures { result ≡ no_orders }
    {
        KeptOrders {
            frozen: None,
            first: None,
            second: None,
            third: None,
            fourth: None,
        }
    }
}

impl Orders {
    /// What is kept if the first run goes on.
    pub fn before_first(&self) -> KeptOrders
        ensures { as_list result ≡ Some self.now.frozen ∷ None ∷ None ∷ None ∷ None ∷ [] }
    {
        let mut kept = KeptOrders::none();
        kept.frozen = Some(self.frozen);
        kept
    }

    /// What is kept if the second run goes on.
    pub fn before_second(&self) -> KeptOrders
        ensures { as_list result
            ≡ Some self.now.frozen ∷ Some self.now.first ∷ None ∷ None ∷ None ∷ [] }
    {
        let mut kept = self.before_first();
        kept.first = Some(self.first);
        kept
    }

    /// What is kept if the third run goes on.
    pub fn before_third(&self) -> KeptOrders
        ensures { as_list result ≡ Some self.now.frozen ∷ Some self.now.first
            ∷ Some self.now.second ∷ None ∷ None ∷ [] }
    {
        let mut kept = self.before_second();
        kept.second = Some(self.second);
        kept
    }

    /// What is kept if the fourth run goes on.
    pub fn before_fourth(&self) -> KeptOrders
        ensures { as_list result ≡ Some self.now.frozen ∷ Some self.now.first
            ∷ Some self.now.second ∷ Some self.now.third ∷ None ∷ [] }
    {
        let mut kept = self.before_third();
        kept.third = Some(self.third);
        kept
    }
}

/// Those of these heads; what is kept is not compared again.
#[inline(always)]
pub fn orders_of(
    kept: &KeptOrders,
    active: &Head,
    frozen: &Head,
    first: &Head,
    second: &Head,
    third: &Head,
    fourth: &Head,
) -> Orders
    requires { EachKept (seen_head active.now ∷ []) (seen_head frozen.now ∷ seen_head first.now
        ∷ seen_head second.now ∷ seen_head third.now ∷ seen_head fourth.now ∷ [])
        (as_list kept.now) }
    ensures { AreOrders (seen_head active.now) (seen_head frozen.now) (seen_head first.now)
        (seen_head second.now) (seen_head third.now) (seen_head fourth.now) result }
{
    let of_frozen = kept_order(kept.frozen, active, frozen);
    let upper = lower(active, frozen, of_frozen);
    let of_first = kept_order(kept.first, upper, first);
    let two = lower(upper, first, of_first);
    let of_second = kept_order(kept.second, two, second);
    let three = lower(two, second, of_second);
    let of_third = kept_order(kept.third, three, third);
    let four = lower(three, third, of_third);
    Orders {
        frozen: of_frozen,
        first: of_first,
        second: of_second,
        third: of_third,
        fourth: kept_order(kept.fourth, four, fourth),
    }
}

// How they compare, computed only if that is not kept.
#[inline(always)]
fn kept_order(kept: Option<Ordering>, head: &Head, other: &Head) -> Ordering
    requires { IfSome kept (λ o. o
        ≡ order_of (entry_in (seen_head head.now)) (entry_in (seen_head other.now))) }
    ensures { result ≡ order_of (entry_in (seen_head head.now)) (entry_in (seen_head other.now)) }
{
    match kept {
        Some(known) => known,
        None => order(head, other),
    }
}

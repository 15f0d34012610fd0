//! Live limits of namespaces.
ghost use Rattle.std.specs.Prelude.{◌≡◌, ◌≤◌, ◌-◌, ◌==◌, ◌∷◌, [], length, sum, slice_index, Ok, Err, MatchResult};
ghost use Rattle.pk_base.specs.Shape.{limit};
ghost use Rattle.pk_space.specs.Limits as spec;

use pk_base::{MOST_SPACES, Shape};
use std::marker::Model;
use thiserror::Error;

/// The most namespaces of a drive, as a length.
pub(crate) const SPACES: usize = MOST_SPACES as usize;
/// The place in a root page with limits from which on the blocks are listed.
pub const LIMITS_LIST_FROM: u32 = 96;

/// Why no drive has these limits.
#[derive(Clone, Copy, Debug, PartialEq, Eq, Error)]
pub enum LimitsError {
    #[error("Count")]
    Count,
    #[error("Zero")]
    Zero,
    #[error("TooMuch")]
    TooMuch,
    #[error("NoRoom")]
    NoRoom,
}

/// The live limits of the namespaces of a drive, in pages.
#[derive(Drop)]
pub struct Limits {
    shape: Shape,
    /// How many of them are limits, from the first on.
    count: usize,
    each: [u32; SPACES],
}

impl Model for Limits {
    ghost use Rattle.std.specs.Prelude.{take};
    ghost use Rattle.pk_space.specs.Limits as spec;

    ghost Value = { spec.Limits };

    ghost view = { λ l. record { shape = l.shape; each = take l.count l.each } };

    ghost invariant = { λ l. spec.AreLimits l.shape l.count l.each };
}

impl Limits {
    /// Namespaces with these limits.
    #[tactic(auto, unfolding(crate::specs::Limits::limits_checked))]
    pub fn new(shape: &Shape, limits: &[u32]) -> Result<Limits, LimitsError>
        ensures { MatchResult result
            (λ l. (spec.limits_checked shape.now limits.now ≡ Ok limits.now)
            × (l ≡ record { shape = shape.now; each = limits.now }))
            (λ e. spec.limits_checked shape.now limits.now ≡ Err e) }
    {
        if limits.is_empty() || limits.len() > SPACES {
            return Err(LimitsError::Count);
        }
        if has_zero(limits) {
            return Err(LimitsError::Zero);
        }
        if total(limits) > shape.limit() as u64 {
            return Err(LimitsError::TooMuch);
        }
        if shape.page_bytes() < LIMITS_LIST_FROM + 2 * (shape.meta_blocks() + 4) {
            return Err(LimitsError::NoRoom);
        }
        Ok(of_each(shape, limits))
    }

    /// One namespace with the limit of the shape.
    pub fn whole(shape: &Shape) -> Limits
        ensures { result ≡ record { shape = shape.now; each = limit shape.now ∷ [] } }
    {
        // A shape has at least three blocks for values, so its limit is not zero.
        let _ = shape.data_blocks();
        of_each(shape, &[shape.limit()])
    }

    /// The shape that they are limits of.
    pub fn shape(&self) -> &Shape
        ensures { result.now ≡ self.now.shape }
    {
        &self.shape
    }

    /// How many namespaces there are.
    pub fn count(&self) -> u8
        ensures value { result ≡ length self.now.each }
        ensures some { 1 ≤ result }
        ensures most { result ≤ MOST_SPACES }
    {
        self.count as u8
    }

    /// The limits of namespaces 1, 2 and so on.
    pub fn each(&self) -> &[u32]
        ensures value { result.now ≡ self.now.each }
        ensures accepted { spec.AcceptsLimits self.now.shape self.now.each }
    {
        &self.each[..self.count]
    }

    /// The limit of this namespace, from 1 on.
    pub fn limit(&self, space: u8) -> u32
        requires { 1 ≤ space × space ≤ length self.now.each }
        ensures { result ≡ slice_index self.now.each (space - 1) }
    {
        self.each[space as usize - 1]
    }
}

/// One of them is zero.
fn has_zero(limits: &[u32]) -> bool
    ensures { result ≡ spec.has_zero limits.now }
{
    limits.iter().any(|l| *l == 0)
}

/// Their sum.
fn total(limits: &[u32]) -> u64
    requires { length limits.now ≤ SPACES }
    ensures { result ≡ sum limits.now }
{
    limits.iter().map(|l| *l as u64).sum()
}

/// Limits that have passed their checks.
fn of_each(shape: &Shape, limits: &[u32]) -> Limits
    requires { spec.AcceptsLimits shape.now limits.now }
    ensures { result ≡ record { shape = shape.now; each = limits.now } }
{
    let mut each = [0u32; SPACES];
    each[..limits.len()].copy_from_slice(limits);
    Limits {
        shape: *shape,
        count: limits.len(),
        each,
    }
}

//! The plan of a shape.
ghost use Rattle.std.specs.Prelude.{◌≡◌, ◌+◌, ◌≤◌, ◌↔◌, IsNone, IfSome, nat_le};
ghost use Rattle.pk_base.specs.Shape as spec;
ghost use Rattle.pk_base.specs.Merge as merge;
ghost use Rattle.pk_plan.specs.Quotas.{quota_of, IsPlan};

use crate::owner::Owner;
use pk_base::{EPOCH_BLOCKS, MOST_BLOCKS, Shape};
use std::marker::Model;

/// What a drive of a shape plans with. Contracts see the shape.
#[derive(Clone, Copy, Debug)]
pub struct Plan {
    shape: Shape,
}

impl Model for Plan {
    ghost use Rattle.pk_base.specs.Shape as spec;

    ghost Value = { spec.Shape };

    ghost view = { λ p. p.shape };

    ghost inverse = { λ s. record { shape = s } };
}

impl Plan {
    /// The plan of this shape.
    pub fn of(shape: Shape) -> Plan
        ensures { result ≡ shape }
    {
        Plan { shape }
    }

    /// The shape.
    pub fn shape(&self) -> Shape
        ensures { result ≡ self.now }
    {
        self.shape
    }

    /// Does nothing: brings the bounds of the quotas of a shape into a proof.
    #[tactic(auto, unfolding(pk_base::specs::Shape::data_blocks))]
    pub fn known(&self)
        ensures { IsPlan self.now }
    {
        let _ = self.shape.cap(4);
        let _ = self.shape.data_blocks();
        let _ = self.calls();
    }

    /// Most blocks of this owner.
    pub fn quota(&self, owner: Owner) -> u32
        ensures value { result ≡ quota_of self.now owner }
        ensures most { result ≤ MOST_BLOCKS }
    {
        match owner {
            Owner::Journal => 2 * EPOCH_BLOCKS,
            Owner::Meta => self.shape.meta_blocks(),
            Owner::Values => self.shape.data_blocks(),
        }
    }

    /// Frames that pin `levels` levels: all their pages, and those of a merge's output into one of
    /// them.
    pub fn need(&self, levels: u8) -> u32
        requires { levels ≤ 4 }
        ensures { result ≡ spec.need self.now levels }
    {
        let first = self.shape.cap(1);
        let second = self.shape.cap(2);
        let third = self.shape.cap(3);
        let deepest = self.shape.cap(4);
        match levels {
            0 => 0,
            1 => first + first,
            2 => first + second + second,
            3 => first + second + third + third,
            _ => first + second + third + deepest + deepest.max(third),
        }
    }

    /// The most levels that `frames` frames pin.
    pub fn pinned(&self, frames: u32) -> u8
        ensures value { result ≡ spec.pinned self.now frames }
        ensures most { result ≤ 4 }
    {
        if self.need(4) <= frames {
            return 4;
        }
        if self.need(3) <= frames {
            return 3;
        }
        if self.need(2) <= frames {
            return 2;
        }
        if self.need(1) <= frames {
            return 1;
        }
        0
    }

    /// The most device calls of a command.
    #[tactic(auto, unfolding(pk_base::specs::Shape::most_calls))]
    pub fn calls(&self) -> u64
        ensures value { result ≡ spec.most_calls self.now }
        ensures most { result ≤ 8001760 }
    {
        let upper = self.shape.cap(1) + self.shape.cap(2) + self.shape.cap(3);
        let pages = (upper + self.shape.cap(4)) as u64;
        // A Store empties the buffers at most twice, by merges that read a page of a run at most
        // twice, program it once, and take blocks; it copies at most one block, and programs its
        // value; lookups, commits, freezes and roots take the rest.
        8 * pages + 4 * self.shape.block_pages() as u64 + 64
    }

    /// The level into which the next merge goes, for these numbers of frozen keys and of entries of
    /// each run. None exactly if no key is frozen.
    pub fn next_merge(&self, frozen: u32, runs: &[u32; 4]) -> Option<u8>
        ensures target { result ≡ merge.next_merge self.now frozen runs.now }
        ensures none { IsNone result ↔ (frozen ≡ 0) }
        ensures level { IfSome result (λ t. 1 ≤ t × t ≤ 4) }
    {
        if frozen == 0 {
            return None;
        }
        if self.fits(frozen, runs[0], 1) {
            return Some(1);
        }
        if self.fits(runs[0], runs[1], 2) {
            return Some(2);
        }
        if self.fits(runs[1], runs[2], 3) {
            return Some(3);
        }
        Some(4)
    }

    /// Whether the run of this level has room for the entries of both.
    fn fits(&self, source: u32, target: u32, level: u8) -> bool
        requires { 1 ≤ level × level ≤ 4 }
        ensures { result ≡ nat_le (source + target) (merge.room self.now level) }
    {
        let room = self.shape.cap(level) as u64 * self.shape.entries() as u64;
        source as u64 + target as u64 <= room
    }
}

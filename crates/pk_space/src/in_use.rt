//! What is used of each namespace.
ghost use Rattle.std.specs.Prelude.{◌≡◌, ◌≤◌, ◌<◌, ◌+◌, ◌-◌, ◌^◌, slice_index};
ghost use Rattle.pk_space.specs.Uses as spec;

use crate::limits::SPACES;
use std::marker::Model;

/// The live pages and the keys of each namespace.
#[derive(Clone, Copy, Debug)]
pub struct Use {
    live: [u32; SPACES],
    keys: [u32; SPACES],
}

impl Model for Use {
    ghost use Rattle.pk_space.specs.Uses as spec;

    ghost Value = { spec.Use };

    ghost view = { λ u. record { live = u.live; keys = u.keys } };

    ghost inverse = { λ g. record { live = g.live; keys = g.keys } };
}

impl Use {
    /// Nothing is used.
    pub fn new() -> Use
        ensures { result ≡ spec.nothing_used }
    {
        Use {
            live: [0; SPACES],
            keys: [0; SPACES],
        }
    }

    /// The live pages of this namespace.
    pub fn live(&self, space: u8) -> u32
        requires { spec.IsSpace space }
        ensures { result ≡ spec.space_live self.now space }
    {
        self.live[space as usize - 1]
    }

    /// The keys of this namespace.
    pub fn keys(&self, space: u8) -> u32
        requires { spec.IsSpace space }
        ensures { result ≡ spec.space_keys self.now space }
    {
        self.keys[space as usize - 1]
    }

    /// A key of this namespace that had a value of `old` pages has one of `new` pages now; no value has 0 pages.
    pub fn change(&mut self, space: u8, old: u32, new: u32)
        requires space { spec.IsSpace space }
        requires there { spec.CanLeave self.old space old }
        requires live_fits { spec.space_live self.old space - old + new < 2 ^ 32 }
        requires keys_fit { spec.space_keys self.old space - spec.value_count old + spec.value_count new
            < 2 ^ 32 }
        ensures { self.new ≡ spec.used_after self.old space old new }
    {
        let i = space as usize - 1;
        self.live[i] = self.live[i] - old + new;
        self.keys[i] = self.keys[i] - value_count(old) + value_count(new);
    }
}

/// How many values these pages are: one, or none if there are none.
fn value_count(charge: u32) -> u32
    ensures { result ≡ spec.value_count charge }
{
    if charge == 0 { 0 } else { 1 }
}

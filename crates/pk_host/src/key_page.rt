//! A page of keys, with room for as many as one List can give.
ghost use Rattle.std.specs.Prelude.{◌≡◌, ◌≤◌, ◌<◌, ◌++◌, [], ◌∷◌, length, slice_index_or, IfOk};
ghost use Rattle.std.specs.List.{AllByRecursion};
ghost use Rattle.pk_host.specs.declared.sizes.TheConstants.{MOST_KEYS};
ghost use Rattle.pk_host.specs.Calls.{IsOwnKey};

use crate::sizes::MOST_KEYS;
use pk_base::Key;
use std::alloc::{AllocError, Global};
use std::marker::Model;

/// Keys of the namespace in which commands are passed, in order. Contracts see them as a list.
#[derive(Drop)]
pub struct KeyPage {
    keys: Vec<Key>,
}

impl Model for KeyPage {
    ghost use Rattle.std.specs.Prelude.{◌≤◌, List, length, vec_capacity};
    ghost use Rattle.std.specs.List.{AllByRecursion};
    ghost use Rattle.pk_host.specs.Calls.{IsOwnKey};
    ghost use Rattle.pk_base.specs.Key.{Key};
    ghost use Rattle.pk_host.specs.declared.sizes.TheConstants.{MOST_KEYS};

    ghost Value = { List Key };

    ghost view = { λ p. p.keys.items };

    ghost invariant = { λ p. (length p.keys.items ≤ MOST_KEYS)
        × (MOST_KEYS ≤ vec_capacity p.keys) × AllByRecursion IsOwnKey p.keys.items };
}

impl KeyPage {
    /// No key, and room for 16,384, more than a List gives; an error if the memory for them is
    /// missing.
    pub fn new(alloc: Global) -> Result<KeyPage, AllocError>
        ensures { IfOk result (λ p. p ≡ []) }
    {
        Ok(KeyPage {
            keys: Vec::with_capacity(alloc, MOST_KEYS)?,
        })
    }

    /// How many keys there are.
    pub fn len(&self) -> u32
        ensures count { result ≡ length self.now }
        ensures most { result ≤ MOST_KEYS }
    {
        self.keys.len() as u32
    }

    /// The key at this place, counted from 0.
    pub fn at(&self, i: u32) -> &Key
        requires { i < length self.now }
        ensures value { result.now ≡ slice_index_or self.now i [] }
        ensures own { IsOwnKey result.now }
    {
        &self.keys[i as usize]
    }

    /// Does nothing: brings into a proof that its keys are of the namespace in which commands are passed.
    pub(crate) fn known(&self)
        ensures { AllByRecursion IsOwnKey self.now }
    {
        let _ = &self.keys;
    }

    /// No key.
    pub(crate) fn clear(&mut self)
        ensures { self.new ≡ [] }
    {
        self.keys.clear();
    }

    /// One more key, for which there is room.
    pub(crate) fn push(&mut self, key: Key)
        requires own { IsOwnKey key }
        requires room { length self.old < MOST_KEYS }
        ensures { self.new ≡ self.old ++ key ∷ [] }
    {
        self.keys.push_reserved(key);
    }
}

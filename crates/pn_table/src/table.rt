//! The table.

ghost use Rattle.std.specs.Prelude.{◌≡◌, [], true, false, IfOk, IsSome};
ghost use Rattle.std.specs.NonZero.{non_zero_usize_get};
ghost use Rattle.std.specs.Map.{lookup};
ghost use Rattle.pn_table.specs.Table.{same_key, looked, stored};

use crate::key::Key;
use crate::numbers::Numbers;
use lru::LruCache;
use std::alloc::{AllocError, Global};
use std::marker::Model;
use std::num::NonZeroUsize;

/// Numbers by key, the most recently used first, at most as many as the table was made for.
#[derive(Drop)]
pub struct Table {
    entries: LruCache<Key, Numbers>,
}

impl Model for Table {
    ghost use Rattle.pn_table.specs.Table.{TableContent};

    ghost Value = { TableContent };

    ghost view = { λ t. record { entries = t.entries.entries; capacity = t.entries.cap } };
}

impl Table {
    /// An empty table for at most `capacity` keys. It begins small and grows.
    pub fn with_capacity(alloc: Global, capacity: NonZeroUsize) -> Result<Table, AllocError>
        ensures { IfOk result
            (λ t. t ≡ record { entries = []; capacity = non_zero_usize_get capacity }) }
    {
        Ok(Table {
            entries: LruCache::sparse(alloc, capacity)?,
        })
    }

    /// The numbers of the key, which then counts as the most recently used. It allocates no memory.
    pub fn look(&mut self, key: Key) -> Option<Numbers>
        ensures value { result ≡ lookup (same_key key) self.old.entries }
        ensures content { self.new ≡ looked self.old key }
    {
        // Each cache keeps this, and that its keys differ: the clauses on the content rest on both.
        prove!(self.entries.len() <= self.entries.cap().get());
        self.entries.get(&key).copied()
    }

    /// Stores the numbers in place of older ones of the key, which then counts as the most recently used. In a full table a new key
    /// takes the place of the least recently used one. Returns `false` if memory is refused; then nothing has changed.
    pub fn store(&mut self, key: Key, numbers: Numbers) -> bool
        ensures stored { result ≡ true → self.new ≡ stored self.old key numbers }
        ensures kept { result ≡ false → self.new ≡ self.old }
        ensures present { IsSome (lookup (same_key key) self.old.entries) → result ≡ true }
    {
        // Each cache keeps this, and that its keys differ: the clauses on the content rest on both.
        prove!(self.entries.len() <= self.entries.cap().get());
        self.entries.put(key, numbers).is_ok()
    }
}

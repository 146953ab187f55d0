//! The list type of the product: a vector whose contracts speak of its items alone.
#![tactic(auto)]

ghost use Rattle.std.specs.Prelude.{◌≡◌, ◌↔◌, ◌^◌, ◌+◌, ◌<◌, IsTrue, List, [], ◌∷◌, ◌++◌, OnErr, OnOk, Some, length};
ghost use Rattle.std.specs.Prelude.{remove, slice_get, slice_index_or, slice_set, take, vec_len};
ghost use Rattle.std.specs.Borrow.{sem};

use std::alloc::AllocError;
use std::marker::Model;
use std::mem;

/// Items in order, fewer than `2^32`, so that a `u32` names each of them.
///
/// A contract sees the list itself. What a vector knows beside its items, as its capacity, isn't seen.
#[derive(Drop)]
pub struct Items<T> {
    items: Vec<T>,
}

impl<T> Model for Items<T> {
    ghost Value = { List T };

    ghost view = { λ list. list.items.items };

    ghost invariant = { λ list. vec_len list.items < 2 ^ 32 };
}

impl<T> Items<T> {
    ghost use Rattle.lists.specs.Lends.{lends_item};

    /// The list of these items. It takes no memory.
    pub fn from_vec(items: Vec<T>) -> Self
        requires { vec_len items < 2 ^ 32 }
        ensures { result ≡ items.items }
    {
        Items { items }
    }

    /// The items back as a vector. It takes no memory.
    pub fn into_vec(self) -> Vec<T>
        ensures items { result.items ≡ self }
        ensures len { vec_len result < 2 ^ 32 }
    {
        let Items { items } = self;
        items
    }

    /// The number of items.
    pub fn len(&self) -> u32
        ensures { result ≡ length self.now }
    {
        self.items.len() as u32
    }

    /// Whether there is no item.
    pub fn is_empty(&self) -> bool
        ensures { IsTrue result ↔ (self.now ≡ []) }
    {
        self.items.is_empty()
    }

    /// The item in that place, from 0.
    pub fn get(&self, at: u32) -> &T
        requires { at < length self.now }
        ensures item { slice_get self.now at ≡ Some result.now }
        ensures value { result.now ≡ slice_index_or self.now at result.now }
    {
        &self.items[at as usize]
    }

    /// Lends the item in that place, from 0, to be changed there.
    pub fn get_mut(&mut self, at: u32) -> &mut T
        requires { at < length self.old }
        ensures* writes_back { sem 𝓛 (lends_item T.row self.entry at result) }
        ensures item { slice_get self.old at ≡ Some result.now }
    {
        &mut self.items[at as usize]
    }

    /// The items as a slice.
    pub fn as_slice(&self) -> &[T]
        ensures items { result.now ≡ self.now }
        ensures len { length result.now < 2 ^ 32 }
    {
        self.items.as_slice()
    }

    /// The item at the end, one more. Without memory for it the list stays as it was.
    pub fn push(&mut self, item: T) -> Result<(), AllocError>
    where
        T: Drop,
        requires { length self.old + 1 < 2 ^ 32 }
        ensures ok { OnOk result (self.new ≡ self.old ++ item ∷ []) }
        ensures err { OnErr result (self.new ≡ self.old) }
    {
        match self.items.push(item) {
            Ok(()) => Ok(()),
            Err(failed) => Err(failed.into()),
        }
    }

    /// Puts the item in that place, and gives the one that stood there.
    pub fn replace(&mut self, at: u32, item: T) -> T
        requires { at < length self.old }
        ensures was { slice_get self.old at ≡ Some result }
        ensures is { self.new ≡ slice_set self.old at item }
    {
        mem::replace(&mut self.items[at as usize], item)
    }

    /// Takes the item of that place out; the later ones move up.
    pub fn remove(&mut self, at: u32) -> T
        requires { at < length self.old }
        ensures was { slice_get self.old at ≡ Some result }
        ensures rest { self.new ≡ remove self.old at }
    {
        self.items.remove(at as usize)
    }

    /// Keeps the first so many items.
    pub fn truncate(&mut self, count: u32)
    where
        T: Drop,
        ensures { self.new ≡ take count self.old }
    {
        self.items.truncate(count as usize);
    }
}

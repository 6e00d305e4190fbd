//! A list of records, which contracts see as the list of its items.

ghost use Rattle.std.specs.Prelude.{◌≡◌, ◌++◌, [], ◌∷◌, ◌↔◌, ◌<◌, length, take, slice_set, IsTrue, OnOk, OnErr, IfErr};

use std::alloc::{AllocError, AllocFailed, Global};
use std::marker::Model;

/// A list of records. It is a `Vec` that contracts see as the list of its items, so that two records with
/// equal lists are equal.
#[derive(Drop)]
pub struct Items<T> {
    vec: Vec<T>,
}

impl<T> Model for Items<T> {
    ghost use Rattle.std.specs.Prelude.{List};

    ghost Value = { List T };

    ghost view = { λ s. s.vec.items };
}

impl<T> Items<T> {
    /// The empty list, which takes no memory.
    pub fn new(alloc: Global) -> Self
        ensures { result ≡ [] }
    {
        Items {
            vec: Vec::new(alloc),
        }
    }

    /// The items of a `Vec`, without memory.
    pub fn from_vec(vec: Vec<T>) -> Self
        ensures { result ≡ vec.items }
    {
        Items { vec }
    }

    /// The items as a `Vec`, without memory.
    pub fn into_vec(self) -> Vec<T>
        ensures { result.items ≡ self }
    {
        let Items { vec } = self;
        vec
    }

    /// The items as a slice.
    pub fn as_slice(&self) -> &[T]
        ensures { result.now ≡ self.now }
    {
        self.vec.as_slice()
    }

    /// The number of items.
    pub fn len(&self) -> usize
        ensures { result ≡ length self.now }
    {
        self.vec.len()
    }

    /// Whether there is no item.
    pub fn is_empty(&self) -> bool
        ensures { IsTrue result ↔ (self.now ≡ []) }
    {
        self.vec.is_empty()
    }

    /// Puts an item at the end. Where no memory is left, the list is as before and the item comes back.
    pub fn push(&mut self, item: T) -> Result<(), AllocFailed<T>>
        ensures ok { OnOk result (self.new ≡ self.old ++ item ∷ []) }
        ensures err { OnErr result (self.new ≡ self.old) }
        ensures returned { IfErr result (λ e. e.value ≡ item) }
    {
        self.vec.push(item)
    }
}

impl<T: Copy> Items<T> {
    /// Puts items at the end. Where no memory is left, the list is as before.
    pub fn extend_from_slice(&mut self, more: &[T]) -> Result<(), AllocError>
        ensures ok { OnOk result (self.new ≡ self.old ++ more.now) }
        ensures err { OnErr result (self.new ≡ self.old) }
    {
        self.vec.extend_from_slice(more)
    }
}

impl<T: Drop> Items<T> {
    /// Puts an item in the place of another.
    pub fn set(&mut self, at: usize, item: T)
        requires { at < length self.old }
        ensures { self.new ≡ slice_set self.old at item }
    {
        self.vec[at] = item;
    }

    /// Keeps the first items.
    pub fn truncate(&mut self, len: usize)
        ensures { self.new ≡ take len self.old }
    {
        self.vec.truncate(len);
    }
}

/// Puts items at the end of one list and an item at the end of another, or leaves both where no memory is left.
pub(crate) fn push_both<T: Copy + Drop, U: Drop>(
    list: &mut Items<T>,
    more: &[T],
    other: &mut Items<U>,
    item: U,
) -> Result<(), AllocError>
    ensures list_ok { OnOk result (list.new ≡ list.old ++ more.now) }
    ensures other_ok { OnOk result (other.new ≡ other.old ++ item ∷ []) }
    ensures list_err { OnErr result (list.new ≡ list.old) }
    ensures other_err { OnErr result (other.new ≡ other.old) }
{
    let before = list.len();
    list.extend_from_slice(more)?;
    match other.push(item) {
        Ok(()) => Ok(()),
        Err(_) => {
            list.truncate(before);
            Err(AllocError)
        }
    }
}

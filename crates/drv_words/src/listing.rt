//! An owned list that contracts see as the list of its items.

ghost use Rattle.std.specs.Prelude.{◌≡◌, ◌∷◌, ◌++◌, [], IfErr, IfOk, List, MatchOption, OnErr};
ghost use Rattle.std.specs.Prelude.{◌↔◌, IsTrue, OnOk, length};

use std::alloc::{AllocError, AllocFailed, Global};
use std::marker::Model;

/// A list of items, kept in a `Vec`.
#[derive(Debug, Drop)]
pub struct Listing<T> {
    items: Vec<T>,
}

impl<T> Model for Listing<T> {
    ghost Value = { List T };

    ghost view = { λ l. l.items.items };
}

impl<T> Listing<T> {
    /// The empty list.
    pub fn new(alloc: Global) -> Listing<T>
        ensures { result ≡ [] }
    {
        Listing {
            items: Vec::new(alloc),
        }
    }

    /// The list of these items.
    pub fn from_vec(items: Vec<T>) -> Listing<T>
        ensures { result ≡ items.items }
    {
        Listing { items }
    }

    /// Returns the items.
    pub fn into_vec(self) -> Vec<T>
        ensures { result.items ≡ self }
    {
        self.items
    }

    /// The items.
    pub fn as_slice(&self) -> &[T]
        ensures { result.now ≡ self.now }
    {
        self.items.as_slice()
    }

    /// The number of items.
    pub fn len(&self) -> usize
        ensures { result ≡ length self.now }
    {
        self.items.len()
    }

    /// Whether there is no item.
    pub fn is_empty(&self) -> bool
        ensures { IsTrue result ↔ (self.now ≡ []) }
    {
        self.items.is_empty()
    }

    /// Makes room for `additional` more items, so that the list doesn't grow item by item. The
    /// items stay the same.
    pub(crate) fn reserve(&mut self, additional: usize) -> Result<(), AllocError>
        ensures { self.new ≡ self.old }
    {
        self.items.reserve(additional)
    }

    /// Adds an item at the end. On an error the list is unchanged and the item comes back.
    pub fn push(&mut self, item: T) -> Result<(), AllocFailed<T>>
        ensures ok { OnOk result (self.new ≡ self.old ++ item ∷ []) }
        ensures err { OnErr result (self.new ≡ self.old) }
        ensures value_returned { IfErr result (λ e. e.value ≡ item) }
    {
        self.items.push(item)
    }

    /// Removes the last item, if there is one.
    pub fn pop(&mut self) -> Option<T>
        ensures { MatchOption result ((self.old ≡ []) × (self.new ≡ []))
            (λ item. self.old ≡ self.new ++ item ∷ []) }
    {
        self.items.pop()
    }
}

impl<T: Clone> Clone for Listing<T> {
    ghost use Rattle.std.specs.List.{AllZip};

    ghost is_clone = { AllZip T.is_clone };

    fn clone(&self) -> Result<Listing<T>, AllocError> {
        Ok(Listing {
            items: self.items.clone()?,
        })
    }
}

//! A list that stands in a field.

ghost use Rattle.std.specs.Cmp.Lexicographic.{lists_equiv, lists_per, pointwise};
ghost use Rattle.std.specs.Prelude.{◌≡◌, ◌++◌, ◌∷◌, [], length, OnOk, OnErr, slice_set};

use crate::exact_clone::ExactClone;
use std::alloc::{AllocError, Global};
use std::marker::Model;

/// A list that stands in a field. Contracts see the list.
#[derive(Debug, Drop)]
pub struct FieldList<T> {
    items: Vec<T>,
}

impl<T> Model for FieldList<T> {
    ghost use Rattle.std.specs.Prelude.{List};

    ghost Value = { List T };

    ghost view = { λ l. l.items.items };
}

impl<T> FieldList<T> {
    /// The list of no item.
    pub fn new(alloc: Global) -> FieldList<T>
        ensures { result ≡ [] }
    {
        FieldList {
            items: Vec::new(alloc),
        }
    }

    /// These items.
    pub fn from_items(items: Vec<T>) -> FieldList<T>
        ensures { result ≡ items.items }
    {
        FieldList { items }
    }

    /// The items as a slice.
    pub fn as_slice(&self) -> &[T]
        ensures { result.now ≡ self.now }
    {
        self.items.as_slice()
    }

    /// How many items there are.
    pub fn len(&self) -> usize
        ensures { result ≡ length self.now }
    {
        self.items.len()
    }
}

impl<T: Drop> FieldList<T> {
    /// Adds an item at the end. After want of memory the list is as before.
    pub fn push(&mut self, item: T) -> Result<(), AllocError>
        ensures ok { OnOk result (self.new ≡ self.old ++ item ∷ []) }
        ensures err { OnErr result (self.new ≡ self.old) }
    {
        self.items.push(item)?;
        Ok(())
    }

    /// Puts an item in the place of another. Nothing changes where the place is past the end.
    pub fn set(&mut self, place: usize, item: T)
        ensures { self.new ≡ slice_set self.old place item }
    {
        if place < self.items.len() {
            self.items[place] = item;
        }
    }
}

impl<T: PartialEq> PartialEq for FieldList<T> {
    ghost eq = { λ a b. pointwise T.eq a b };

    ghost laws = { lists_per T.laws };

    fn eq(&self, other: &FieldList<T>) -> bool {
        self.as_slice() == other.as_slice()
    }
}

impl<T: Eq> Eq for FieldList<T> {
    ghost laws = { lists_equiv T.Eq.laws };
}

impl<T: ExactClone> Clone for FieldList<T> {
    ghost is_clone = { λ a b. b ≡ a };

    fn clone(&self) -> Result<FieldList<T>, AllocError> {
        Ok(FieldList {
            items: self.items.clone()?,
        })
    }
}

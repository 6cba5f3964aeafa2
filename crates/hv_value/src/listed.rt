//! Lists that contracts see as such, where they see a `Vec` as a record.

ghost use Rattle.std.specs.Prelude.{◌≡◌, ◌≤◌, [], ◌∷◌, ◌++◌, length, take, OnOk, OnErr};
ghost use Rattle.std.specs.List.{insert};
ghost use Rattle.std.specs.Cmp.Lexicographic.{pointwise, lists_equiv, lists_per};
ghost use Rattle.std.specs.Hash as fed;
ghost use Rattle.std.specs.Hash.{items_Alike};

use crate::Mem;
use std::alloc::Global;
use std::hash::{Hash, Hasher};
use std::marker::Model;

/// A list of values.
#[derive(Drop)]
pub struct Listed<T> {
    values: Vec<T>,
}

impl<T> Model for Listed<T> {
    ghost use Rattle.std.specs.Prelude.{List};

    ghost Value = { List T };

    ghost view = { λ listed. listed.values.items };
}

impl<T> Listed<T> {
    /// A list of no values.
    pub fn new(alloc: Global) -> Listed<T>
        ensures { result ≡ [] }
    {
        Listed {
            values: Vec::new(alloc),
        }
    }

    /// The list of a vector's values. It takes no memory.
    pub fn from_vec(values: Vec<T>) -> Listed<T>
        ensures { result ≡ values.items }
    {
        Listed { values }
    }

    /// The values, as a vector. It takes no memory.
    pub fn into_vec(self) -> Vec<T>
        ensures { result.items ≡ self }
    {
        self.values
    }

    pub fn as_slice(&self) -> &[T]
        ensures { result.now ≡ self.now }
    {
        self.values.as_slice()
    }
}

impl<T: Drop> Listed<T> {
    /// Adds a value at the end.
    pub fn push(&mut self, value: T) -> Mem<()>
        ensures added { OnOk result (self.new ≡ self.old ++ value ∷ []) }
        ensures unchanged { OnErr result (self.new ≡ self.old) }
    {
        self.values.push(value)?;
        Ok(())
    }

    /// Puts a value at a place from 0, before the values from there on.
    pub fn insert(&mut self, place: usize, value: T) -> Mem<()>
        requires { place ≤ length self.old }
        ensures put { OnOk result (self.new ≡ insert self.old place value) }
        ensures unchanged { OnErr result (self.new ≡ self.old) }
    {
        self.values.insert(place, value)?;
        Ok(())
    }

    /// Keeps the first values, at most so many.
    pub fn truncate(&mut self, len: usize)
        ensures { self.new ≡ take len self.old }
    {
        self.values.truncate(len);
    }
}

/// Two lists are equal where they are as long and their values are equal in turn.
impl<T: PartialEq> PartialEq for Listed<T> {
    ghost eq = { pointwise T.eq };

    ghost laws = { lists_per T.laws };

    fn eq(&self, other: &Listed<T>) -> bool {
        self.as_slice() == other.as_slice()
    }
}

impl<T: Eq> Eq for Listed<T> {
    ghost laws = { lists_equiv T.Eq.laws };
}

impl<T: Hash> Hash for Listed<T> {
    ghost hash_input = { fed.slice T.hash_input };

    ghost respects_eq = { (items_Alike (record { fed = T.respects_eq })).fed };

    fn hash<H: Hasher>(&self, state: &mut H) {
        self.as_slice().hash(state);
    }
}

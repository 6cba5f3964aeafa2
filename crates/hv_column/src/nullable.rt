//! Values of one type that may be missing. Contracts see them as a list of options.

ghost use Rattle.std.specs.Prelude.{◌≡◌, ◌<◌, List, [], ◌∷◌, ◌++◌, length, Some, OnOk, OnErr, slice_get};

use hv_value::{Mem, Memory};
use std::alloc::Global;
use std::marker::Model;

/// Values that may be missing. Each takes its own room and one byte, and none an allocation of its own.
#[derive(Drop)]
pub struct Nullable<T> {
    /// A missing value keeps its place by some value.
    values: Vec<T>,
    present: Vec<bool>,
}

impl<T> Model for Nullable<T> {
    ghost use Rattle.std.specs.Prelude.{◌≡◌, List, Option, length};
    ghost use Rattle.hv_column.specs.Nullable.{options_of};

    ghost Value = { List (Option T) };

    ghost view = { λ kept. options_of kept.present.items kept.values.items };

    ghost invariant = { λ kept. length kept.present.items ≡ length kept.values.items };
}

impl<T: Copy + Default + Drop> Nullable<T> {
    pub fn new(alloc: Global) -> Nullable<T>
        ensures { result ≡ [] }
    {
        Nullable {
            values: Vec::new(alloc),
            present: Vec::new(alloc),
        }
    }

    pub fn len(&self) -> usize
        ensures { result ≡ length self.now }
    {
        self.values.len()
    }

    /// Adds a value at the end.
    pub fn push(&mut self, value: Option<T>) -> Mem<()>
        ensures ok { OnOk result (self.new ≡ self.old ++ value ∷ []) }
        ensures err { OnErr result (self.new ≡ self.old) }
    {
        self.values.push(value.unwrap_or_default())?;
        if self.present.push(value.is_some()).is_err() {
            let _ = self.values.pop();
            return Err(Memory);
        }
        Ok(())
    }

    /// The value at a place from 0.
    pub fn get(&self, i: usize) -> Option<T>
        requires { i < length self.now }
        ensures { slice_get self.now i ≡ Some result }
    {
        if self.present[i] {
            Some(self.values[i])
        } else {
            None
        }
    }
}

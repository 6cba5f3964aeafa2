//! Texts that may be missing. Contracts see them as a list of options, each present text as its bytes.

ghost use Rattle.std.specs.Prelude.{◌≡◌, ◌<◌, [], ◌∷◌, ◌++◌, length, Some, OnOk, OnErr, IfOk, slice_get, option_map};

use hv_value::{Mem, Text};
use std::alloc::Global;
use std::marker::Model;

/// Texts that may be missing. Each text has memory of its own, and a missing one none.
#[derive(Drop)]
pub struct Texts {
    values: Vec<Option<Text>>,
}

impl Model for Texts {
    ghost use Rattle.std.specs.Prelude.{ℕ, List, Option};

    ghost Value = { List (Option (List ℕ)) };

    ghost view = { λ texts. texts.values.items };
}

/// A copy of a text that may be missing.
fn copy_of(alloc: Global, text: Option<&str>) -> Mem<Option<Text>>
    ensures { IfOk result (λ copy. copy ≡ option_map (λ t. t.now) text.entry) }
{
    match text {
        None => Ok(None),
        Some(text) => Ok(Some(Text::of(alloc, text)?)),
    }
}

/// The text at a place of texts.
fn text_at(values: &[Option<Text>], i: usize) -> Option<&str>
    requires { i < length values.now }
    ensures { slice_get values.now i ≡ Some (option_map (λ text. text.now) result) }
{
    match &values[i] {
        None => None,
        Some(text) => Some(text.as_str()),
    }
}

impl Texts {
    pub fn new(alloc: Global) -> Texts
        ensures { result ≡ [] }
    {
        Texts {
            values: Vec::new(alloc),
        }
    }

    pub fn len(&self) -> usize
        ensures { result ≡ length self.now }
    {
        self.values.len()
    }

    /// Adds a copy of a text at the end.
    pub fn push(&mut self, text: Option<&str>) -> Mem<()>
        ensures ok { OnOk result (self.new ≡ self.old ++ option_map (λ t. t.now) text.entry ∷ []) }
        ensures err { OnErr result (self.new ≡ self.old) }
    {
        let copy = copy_of(*self.values.allocator(), text)?;
        self.values.push(copy)?;
        Ok(())
    }

    /// The text at a place from 0.
    pub fn get(&self, i: usize) -> Option<&str>
        requires { i < length self.now }
        ensures { slice_get self.now i ≡ Some (option_map (λ text. text.now) result) }
    {
        text_at(&self.values, i)
    }
}

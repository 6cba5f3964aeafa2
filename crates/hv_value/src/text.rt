//! Texts. Contracts see one as its list of bytes, which is UTF-8.

ghost use Rattle.std.specs.Prelude.{◌≡◌, IfOk, bytes_eq, string_bytes};
ghost use Rattle.std.specs.Cmp.{partial_equiv_from_equiv};
ghost use Rattle.std.specs.Hash as fed;
ghost use Rattle.std.proofs.Common.{ap};
ghost use Rattle.std.proofs.lemmas.Slice.Eq.{bytes_eq-Decides};
ghost use Rattle.hv_value.specs.SameLaws.{equiv_from_decides};

use crate::Mem;
use std::alloc::Global;
use std::hash::{Hash, Hasher};
use std::marker::Model;

/// A text of its own memory.
#[derive(Drop)]
pub struct Text {
    inner: String,
}

impl Model for Text {
    ghost use Rattle.std.specs.Prelude.{ℕ, List, string_bytes};

    ghost Value = { List ℕ };

    ghost view = { λ text. string_bytes text.inner };
}

impl Text {
    /// Copies a text into memory of its own.
    pub fn of(alloc: Global, s: &str) -> Mem<Text>
        ensures { IfOk result (λ text. text ≡ s.now) }
    {
        Ok(Text {
            inner: String::from_str(alloc, s)?,
        })
    }

    /// The text of a string. It takes no memory.
    pub fn from_string(s: String) -> Text
        ensures { result ≡ string_bytes s }
    {
        Text { inner: s }
    }

    #[inline(always)]
    pub fn as_str(&self) -> &str
        ensures { result.now ≡ self.now }
    {
        self.inner.as_str()
    }

    pub fn copy(&self, alloc: Global) -> Mem<Text>
        ensures { IfOk result (λ text. text ≡ self.now) }
    {
        Text::of(alloc, self.as_str())
    }
}

/// Two texts are equal where their bytes are.
impl PartialEq for Text {
    ghost eq = { bytes_eq };

    ghost laws = { partial_equiv_from_equiv (equiv_from_decides bytes_eq bytes_eq-Decides) };

    fn eq(&self, other: &Text) -> bool {
        self.as_str() == other.as_str()
    }
}

impl Eq for Text {
    ghost laws = { equiv_from_decides bytes_eq bytes_eq-Decides };
}

impl Hash for Text {
    ghost hash_input = { λ text. fed.str text };

    ghost respects_eq = { λ x y e. ap fed.str ((bytes_eq-Decides x y).0 e) };

    fn hash<H: Hasher>(&self, state: &mut H) {
        self.as_str().hash(state);
    }
}

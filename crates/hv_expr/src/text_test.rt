//! Tests of a text. The definition is `meets` (specs/TextTests.antt).

ghost use Rattle.std.specs.Prelude.{◌≡◌, bytes_eq, false, IfOk, IsOk, string_bytes};
ghost use Rattle.hv_expr.specs.Memory.{test_takes_memory};
ghost use Rattle.hv_expr.specs.TextTests.{contains, folded, matches, meets};

use caseless::{default_case_fold_str, default_caseless_match_str};
use hv_value::{Mem, Text};
use memchr::memmem;
use std::alloc::Global;

/// How a text is compared with a test's text.
#[derive(Clone, Copy, Debug, PartialEq, Eq, Hash)]
pub enum How {
    Equals,
    Contains,
    Begins,
}

/// A test of a text.
#[derive(Drop)]
pub struct TextTest {
    pub how: How,
    /// Whether both sides are case folded first.
    pub fold: bool,
    pub text: Text,
}

impl TextTest {
    /// Whether a text meets the test. It takes memory only where it looks for a piece of a folded text. Over many texts
    /// `ReadyTest` folds the piece once.
    pub fn meets(&self, alloc: Global, text: &str) -> Mem<bool>
        ensures value { IfOk result (λ yes. yes ≡ meets self.now text.now) }
        ensures always { test_takes_memory self.now ≡ false → IsOk result }
    {
        if !self.fold {
            return Ok(matches(self.how, self.text.as_str(), text));
        }
        if let How::Equals = self.how {
            return Ok(equals_folded(self.text.as_str(), text));
        }
        let piece = folded(alloc, self.text.as_str())?;
        folded_matches(alloc, self.how, piece.as_str(), text)
    }

    /// The same test, in memory of its own.
    pub fn copy(&self, alloc: Global) -> Mem<TextTest>
        ensures { IfOk result (λ test. test ≡ self.now) }
    {
        Ok(TextTest {
            how: self.how,
            fold: self.fold,
            text: self.text.copy(alloc)?,
        })
    }
}

/// Whether two texts are equal once both are folded. They are compared character by character, in no memory.
pub(crate) fn equals_folded(own: &str, text: &str) -> bool
    ensures { result ≡ bytes_eq (folded text.now) (folded own.now) }
{
    default_caseless_match_str(own, text)
}

/// The default case folding of a text.
#[tactic(auto, unfolding(crate::specs::TextTests::folded))]
pub(crate) fn folded(alloc: Global, text: &str) -> Mem<String>
    ensures { IfOk result (λ t. string_bytes t ≡ folded text.now) }
{
    Ok(default_case_fold_str(alloc, text)?)
}

/// Whether a text, folded, compares so with a piece.
pub(crate) fn folded_matches(alloc: Global, how: How, piece: &str, text: &str) -> Mem<bool>
    ensures { IfOk result (λ yes. yes ≡ matches how piece.now (folded text.now)) }
{
    let folded = folded(alloc, text)?;
    Ok(matches(how, piece, folded.as_str()))
}

/// Whether a text compares so with a piece, byte for byte.
pub(crate) fn matches(how: How, piece: &str, text: &str) -> bool
    ensures { result ≡ matches how piece.now text.now }
{
    match how {
        How::Equals => text == piece,
        How::Contains => contains(piece.as_bytes(), text.as_bytes()),
        How::Begins => text.as_bytes().starts_with(piece.as_bytes()),
    }
}

/// Whether a piece stands somewhere in a text.
fn contains(piece: &[u8], text: &[u8]) -> bool
    ensures { result ≡ contains piece.now text.now }
{
    memmem::find(text, piece).is_some()
}

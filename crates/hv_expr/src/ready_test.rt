//! Tests of a text that are prepared for many texts. The definition is `IsReadyTest` (specs/Ready.antt).

ghost use Rattle.std.specs.Prelude.{◌≡◌, bytes_eq, false, true, IfErr, IfOk, IsOk};
ghost use Rattle.hv_expr.specs.TextTests.{begins_with, contains, meets};
ghost use Rattle.hv_expr.specs.declared.text_test.TextTest.{TextTest};
ghost use Rattle.hv_expr.specs.Ready.{IsReadyTest, folded_where, ready_meets, ready_takes_memory};

use crate::text_test::{equals_folded, folded};
use crate::{How, TextTest};
use hv_value::{Mem, Text};
use memchr::memmem::Finder;
use std::alloc::Global;

/// A test of a text, with what it takes of the test's own text; `fold` says whether texts are folded first.
#[derive(Drop)]
pub enum ReadyTest {
    /// The text is equal to the test's own, which stands here as it was given: both are folded as they are compared.
    Equals { fold: bool, own: Text },
    /// The text has a piece, folded already where the test folds, in a search for it that is made once.
    Contains { fold: bool, piece: Finder<'static> },
    /// The text begins with a piece, folded already where the test folds.
    Begins { fold: bool, piece: Text },
}

impl ReadyTest {
    /// Prepares a test.
    pub fn of(alloc: Global, test: &TextTest) -> Mem<ReadyTest>
        ensures { IfOk result (λ ready. IsReadyTest test.now ready) }
    {
        let fold = test.fold;
        Ok(match test.how {
            How::Equals => ReadyTest::Equals {
                fold,
                own: test.text.copy(alloc)?,
            },
            How::Contains => ReadyTest::Contains {
                fold,
                piece: search_for(alloc, ready_text(alloc, test)?)?,
            },
            How::Begins => ReadyTest::Begins {
                fold,
                piece: ready_text(alloc, test)?,
            },
        })
    }

    /// Whether a text meets the test that was prepared. It takes memory only where the test looks for a piece of a
    /// folded text.
    pub fn meets(&self, alloc: Global, text: &str) -> Mem<bool>
        ensures value { (test : TextTest) → IsReadyTest test self.now → IfOk result (λ yes. yes ≡ meets test text.now) }
        ensures always { ready_takes_memory self.now ≡ false → IsOk result }
    {
        self.decide(alloc, text)
    }

    /// The same by the prepared text.
    pub(crate) fn decide(&self, alloc: Global, text: &str) -> Mem<bool>
        ensures value { IfOk result (λ yes. yes ≡ ready_meets self.now text.now) }
        ensures memory { IfErr result (λ _. ready_takes_memory self.now ≡ true) }
    {
        match self {
            ReadyTest::Equals { fold, own } => Ok(equals(*fold, own.as_str(), text)),
            ReadyTest::Contains { fold, piece } => {
                if !*fold {
                    return Ok(contains(piece, text));
                }
                let folded = folded(alloc, text)?;
                Ok(contains(piece, folded.as_str()))
            }
            ReadyTest::Begins { fold, piece } => {
                if !*fold {
                    return Ok(begins(piece.as_str(), text));
                }
                let folded = folded(alloc, text)?;
                Ok(begins(piece.as_str(), folded.as_str()))
            }
        }
    }
}

/// A search for a text, in memory of its own.
fn search_for(alloc: Global, text: Text) -> Mem<Finder<'static>>
    ensures { IfOk result (λ search. search ≡ text) }
{
    Ok(Finder::new(text.as_str().as_bytes()).into_owned(alloc)?)
}

/// Whether two texts are equal, once both are folded where the test folds.
fn equals(fold: bool, own: &str, text: &str) -> bool
    ensures { result ≡ bytes_eq (folded_where fold text.now) (folded_where fold own.now) }
{
    if fold {
        equals_folded(own, text)
    } else {
        text == own
    }
}

/// Whether the text that is searched for stands somewhere in a text.
fn contains(search: &Finder<'static>, text: &str) -> bool
    ensures { result ≡ contains search.now text.now }
{
    search.find(text.as_bytes()).is_some()
}

/// Whether a text begins with a piece.
fn begins(piece: &str, text: &str) -> bool
    ensures { result ≡ begins_with piece.now text.now }
{
    text.as_bytes().starts_with(piece.as_bytes())
}

/// A test's own text, folded where the test folds.
fn ready_text(alloc: Global, test: &TextTest) -> Mem<Text>
    ensures { IfOk result (λ text. text ≡ folded_where test.now.fold test.now.text) }
{
    if test.fold {
        let folded = folded(alloc, test.text.as_str())?;
        Ok(Text::from_string(folded))
    } else {
        test.text.copy(alloc)
    }
}

//! The words of kinds, of relations and of forms of text tests: beside each table the reading of its words, by which
//! each word is read back. The definitions are in specs/Words.antt.

ghost use Rattle.std.specs.Prelude.{◌≡◌, Some};
ghost use Rattle.hv_asked.specs.Words as word;

use hv_expr::{How, Rel};
use hv_value::Kind;

/// The word of a kind.
#[tactic(auto, using(crate::proofs::WordLemmas::words_back))]
pub fn kind_word(kind: Kind) -> &'static str
    ensures value { result.now ≡ word.kind_word kind }
    ensures back { word.kind_named result.now ≡ Some kind }
{
    match kind {
        Kind::Int => "int",
        Kind::Date => "date",
        Kind::Text => "text",
    }
}

/// The kind that a word names.
pub(crate) fn kind_named(text: &str) -> Option<Kind>
    ensures { result ≡ word.kind_named text.now }
{
    match text {
        "int" => Some(Kind::Int),
        "date" => Some(Kind::Date),
        "text" => Some(Kind::Text),
        _ => None,
    }
}

/// The word of a relation.
#[tactic(auto, using(crate::proofs::WordLemmas::words_back))]
pub fn rel_word(rel: Rel) -> &'static str
    ensures value { result.now ≡ word.rel_word rel }
    ensures back { word.rel_named result.now ≡ Some rel }
{
    match rel {
        Rel::Lt => "lt",
        Rel::Le => "le",
        Rel::Eq => "eq",
        Rel::Ne => "ne",
        Rel::Ge => "ge",
        Rel::Gt => "gt",
    }
}

/// The relation that a word names.
pub(crate) fn rel_named(text: &str) -> Option<Rel>
    ensures { result ≡ word.rel_named text.now }
{
    match text {
        "lt" => Some(Rel::Lt),
        "le" => Some(Rel::Le),
        "eq" => Some(Rel::Eq),
        "ne" => Some(Rel::Ne),
        "ge" => Some(Rel::Ge),
        "gt" => Some(Rel::Gt),
        _ => None,
    }
}

/// The word of a form of text tests.
#[tactic(auto, using(crate::proofs::WordLemmas::words_back))]
pub fn how_word(how: How) -> &'static str
    ensures value { result.now ≡ word.how_word how }
    ensures back { word.how_named result.now ≡ Some how }
{
    match how {
        How::Equals => "equals",
        How::Contains => "contains",
        How::Begins => "begins",
    }
}

/// The form of text tests that a word names.
pub(crate) fn how_named(text: &str) -> Option<How>
    ensures { result ≡ word.how_named text.now }
{
    match text {
        "equals" => Some(How::Equals),
        "contains" => Some(How::Contains),
        "begins" => Some(How::Begins),
        _ => None,
    }
}

/// Whether a direction of a key goes down, by its word.
pub(crate) fn down_named(text: &str) -> Option<bool>
    ensures { result ≡ word.down_named text.now }
{
    match text {
        "up" => Some(false),
        "down" => Some(true),
        _ => None,
    }
}

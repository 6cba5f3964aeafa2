//! The words of how two lineages are combined: beside their table the reading of them, by which each word is read back.
//! The definitions are in specs/Words.antt.

ghost use Rattle.std.specs.Prelude.{◌≡◌, Some};
ghost use Rattle.serde_json.specs.View.{view};
ghost use Rattle.hv_asked.specs.Meant.{IsField};
ghost use Rattle.hv_message.specs.Words as word;

use hv_asked::fields::word;
use hv_asked::{Refused, Why};
use hv_lineage::How2;
use serde_json::Value;

/// The word of how two lineages are combined.
#[tactic(auto, using(crate::proofs::WordLemmas::how2_back))]
pub fn how2_word(how: How2) -> &'static str
    ensures value { result.now ≡ word.how2_word how }
    ensures back { word.how2_named result.now ≡ Some how }
{
    match how {
        How2::Zip => "zip",
        How2::Union => "union",
        How2::Both => "both",
        How2::Minus => "minus",
    }
}

/// How two lineages are combined, by its word.
fn how2_named(text: &str) -> Option<How2>
    ensures { result ≡ word.how2_named text.now }
{
    match text {
        "zip" => Some(How2::Zip),
        "union" => Some(How2::Union),
        "both" => Some(How2::Both),
        "minus" => Some(How2::Minus),
        _ => None,
    }
}

/// How two lineages are combined, by the word under `how`. `Why::Field` where it is absent, no text or another word.
pub(crate) fn how2_in(value: &Value) -> Result<How2, Refused>
    ensures { IsField result (word.how2_in (view value.now)) }
{
    match how2_named(word(value, "how")?) {
        Some(how) => Ok(how),
        None => Err(Refused::Word(Why::Field)),
    }
}

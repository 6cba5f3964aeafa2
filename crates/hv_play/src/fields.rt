//! Fields of JSON values.

ghost use Rattle.std.specs.Prelude.{◌≡◌, option_map};
ghost use Rattle.serde_json.specs.View.{view};
ghost use Rattle.hv_asked.specs.Fields as field;
ghost use Rattle.hv_play.specs.Script as line;

use serde_json::Value;

/// The whole number of 64 bits under a key.
pub(crate) fn whole_at(value: &Value, name: &str) -> Option<u64>
    ensures { result ≡ line.whole_at name.now (view value.now) }
{
    value.get(name).and_then(Value::as_u64)
}

/// The text under a key.
pub(crate) fn text_at<'a>(value: &'a Value, name: &str) -> Option<&'a str>
    ensures { option_map (λ text. text.now) result ≡ field.text_at name.now (view value.now) }
{
    value.get(name).and_then(Value::as_str)
}

// The items of an array: texts and positions.
ghost use Rattle.std.specs.Prelude.{◌≡◌, option_map};
ghost use Rattle.serde_json.specs.View.{view};
ghost use Rattle.protocol.specs.Requests.{text_of, position_of};

use serde_json::Value;

/// What a position of a history is below.
const POSITION_LIMIT: u64 = 1 << 48;

/// The text that the value is, where it is one. It takes constant time.
pub fn text_of(value: &Value) -> Option<&str>
    ensures { option_map (λ text. text.now) result ≡ text_of (view value.now) }
{
    value.as_str()
}

/// The position of a history, where the value is a whole number below 2^48. It takes constant time.
pub fn position_of(value: &Value) -> Option<u64>
    ensures { result ≡ position_of (view value.now) }
{
    match value.as_u64() {
        Some(position) if position < POSITION_LIMIT => Some(position),
        _ => None,
    }
}

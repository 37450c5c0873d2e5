// The items of a line: numbers and words.
ghost use Rattle.std.specs.Prelude.{◌≡◌};
ghost use Rattle.serde_json.specs.View.{view};
ghost use Rattle.core_events.specs.Scripts.{number_of};
ghost use Rattle.event_script.specs.Lines.{is_word};

use request_codec::text_of;
use serde_json::Value;

/// The number of a client, a scan or a cell, where the value is a whole number below 2^32.
pub fn number_of(value: &Value) -> Option<u32>
    ensures { result ≡ number_of (view value.now) }
{
    match value.as_u64() {
        Some(number) => u32::try_from(number).ok(),
        None => None,
    }
}

/// Whether the value is the text.
pub fn is_word(value: &Value, text: &str) -> bool
    ensures { result ≡ is_word text.now (view value.now) }
{
    match text_of(value) {
        Some(word) => word == text,
        None => false,
    }
}

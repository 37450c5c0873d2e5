// Rows of JSON values.
ghost use Rattle.std.specs.Prelude.{◌≡◌, IfOk, map, false};
ghost use Rattle.serde_json.specs.Data.{string};
ghost use Rattle.serde_json.specs.View.{view};
ghost use Rattle.serde_json.specs.Written.{has_float};
ghost use Rattle.protocol.specs.Rows.{whole_number, list_of, row};

use crate::lines::LINE_END;
use out_of_memory::OutOfMemory;
use serde_json::Value;
use std::alloc::Global;

/// A text as a JSON value, which copies it. Linear in the text.
///
/// `OutOfMemory` comes only where none is found for the copy.
pub fn text_value(alloc: Global, text: &str) -> Result<Value, OutOfMemory>
    ensures { IfOk result (λ value. view value ≡ string text.now) }
{
    Ok(Value::String(String::from_str(alloc, text)?))
}

/// A number as a JSON value. It takes constant time.
pub fn number_value(number: u64) -> Value
    ensures { view result ≡ whole_number number }
{
    Value::from(number)
}

/// A list of values as a value.
fn list_value(items: Vec<Value>) -> Value
    ensures { view result ≡ list_of (map view items.items) }
{
    Value::Array(items)
}

/// The row of values: the compact text of their array (RFC 8259), and the byte 10. Linear in it.
///
/// `OutOfMemory` comes only where none is found for the row.
pub fn write_row(alloc: Global, items: Vec<Value>) -> Result<Vec<u8>, OutOfMemory>
    requires { has_float (list_of (map view items.items)) ≡ false }
    ensures { IfOk result (λ line. line.items ≡ row (map view items.items)) }
{
    let array = list_value(items);
    let mut line = array.to_string(alloc)?.into_bytes();
    line.push(LINE_END)?;
    Ok(line)
}

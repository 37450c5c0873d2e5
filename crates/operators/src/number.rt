// Canonical decimals: the number that a value writes, and the value that writes a number.
ghost use Rattle.std.specs.Prelude.{◌≡◌, IfOk};
ghost use Rattle.std.specs.Fmt.{signed_decimal};
ghost use Rattle.semantics.specs.Outputs.{canonical_integer, unsigned_integer, negative_integer};

use key_space::decimal::{digits_value, is_positive};
use key_space::{Value, ValueFault};
use out_of_memory::OutOfMemory;
use std::alloc::Global;

/// 2^63, the first number above those within 64 bits with a sign.
const FIRST_ABOVE: u64 = 1 << 63;

/// The whole number that a text without a sign writes.
fn unsigned_integer(text: &[u8]) -> Option<i64>
    ensures { result ≡ unsigned_integer text.now }
{
    if text != b"0".as_slice() && !is_positive(text) {
        return None;
    }
    match digits_value(text) {
        Some(number) if number < FIRST_ABOVE => Some(number as i64),
        _ => None,
    }
}

/// The whole number that stands behind a minus sign.
fn negative_integer(digits: &[u8]) -> Option<i64>
    ensures { result ≡ negative_integer digits.now }
{
    if !is_positive(digits) {
        return None;
    }
    match digits_value(digits) {
        Some(number) if number <= FIRST_ABOVE => Some(-i128::from(number) as i64),
        _ => None,
    }
}

/// The number of which the value is the canonical decimal, from -2^63 to 2^63 - 1; none where it is none's, as `05`,
/// `-0`, `+5` or a number beyond. Linear in the text.
#[tactic(auto, unfolding(semantics::specs::Outputs::canonical_integer))]
pub fn whole(value: &Value) -> Option<i64>
    ensures { result ≡ canonical_integer value.now }
{
    let text = value.text().as_bytes();
    match text.split_first() {
        None => None,
        Some((first, rest)) => {
            if *first == b'-' {
                negative_integer(rest)
            } else {
                unsigned_integer(text)
            }
        }
    }
}

/// The canonical decimal of a number, as a value. It fails only where no memory was found.
pub fn decimal(alloc: Global, number: i128) -> Result<Value, OutOfMemory>
    ensures { IfOk result (λ value. value ≡ signed_decimal number) }
{
    let text = format!(in alloc; "{number}")?;
    match Value::read(alloc, text.as_str()) {
        Ok(value) => Ok(value),
        Err(ValueFault::OutOfMemory(memory)) => Err(memory),
        Err(ValueFault::BadValue) => unreachable!(),
    }
}

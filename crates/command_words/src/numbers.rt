// Numbers and names in words.
ghost use Rattle.std.specs.Prelude.{◌≡◌};
ghost use Rattle.command_words.specs.Arguments.{is_number, is_name, number_within};

use key_space::decimal::{are_digits, digits_value};

/// The most digits of a number.
const MAX_DIGITS: usize = 20;

/// The most bytes of a name.
const MAX_NAME_BYTES: usize = 255;

/// Whether the text is 1 to 20 digits.
fn is_number(text: &str) -> bool
    ensures { result ≡ is_number text.now }
{
    let bytes = text.as_bytes();
    1 <= bytes.len() && bytes.len() <= MAX_DIGITS && are_digits(bytes)
}

/// The number that the text is, where it is one within the limits: 1 to 20 digits. Linear in the text.
pub fn number_within(text: &str, least: u64, most: u64) -> Option<u64>
    ensures { result ≡ number_within least most text.now }
{
    if !is_number(text) {
        return None;
    }
    match digits_value(text.as_bytes()) {
        Some(number) if least <= number && number <= most => Some(number),
        _ => None,
    }
}

/// Whether the text is the name of a file, or an address: it has 1 to 255 bytes, and the first is not `-`.
pub fn is_name(text: &str) -> bool
    ensures { result ≡ is_name text.now }
{
    let bytes = text.as_bytes();
    !bytes.is_empty() && bytes.len() <= MAX_NAME_BYTES && bytes[0] != b'-'
}

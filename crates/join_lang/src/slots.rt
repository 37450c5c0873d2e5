// The slots of a pattern token.
ghost use Rattle.std.specs.Prelude.{◌≡◌, IfOk, option_map};
ghost use Rattle.std.specs.List.{list_all};
ghost use Rattle.protocol.specs.JoinText.{is_name_byte, is_name, width_of, slot_named, slot_of_body};
ghost use Rattle.key_pattern.specs.Plain.{plain_segment};
ghost use Rattle.join_lang.specs.Readings.{Finds};

use crate::cut::cut_at;
use crate::names::Names;
use key_pattern::Segment;
use key_pattern::segment::MAX_WIDTH;
use key_space::decimal::is_positive;
use out_of_memory::OutOfMemory;

/// The most characters of a slot's name.
pub const MAX_NAME_BYTES: usize = 32;

/// Whether a byte may stand in a slot's name: a letter a to z or A to Z, a digit, or `_`.
fn is_name_byte(byte: u8) -> bool
    ensures { result ≡ is_name_byte byte }
{
    b'a' <= byte && byte <= b'z'
        || b'A' <= byte && byte <= b'Z'
        || b'0' <= byte && byte <= b'9'
        || byte == b'_'
}

/// Whether each byte may stand in a slot's name.
fn are_name_bytes(bytes: &[u8]) -> bool
    ensures { result ≡ list_all is_name_byte bytes.now }
{
    bytes.iter().all(|byte| is_name_byte(*byte))
}

/// Whether a text is a slot's name, of 1 to 32 characters.
fn is_name(text: &str) -> bool
    ensures { result ≡ is_name text.now }
{
    1 <= text.len() && text.len() <= MAX_NAME_BYTES && are_name_bytes(text.as_bytes())
}

/// The width that a text writes, a decimal without leading zeros from 1 to 64. Linear in the text.
fn width_of(text: &str) -> Option<u8>
    ensures { result ≡ width_of text.now }
{
    let bytes = text.as_bytes();
    if !is_positive(bytes) {
        return None;
    }
    let mut width = 0u16;
    for byte in bytes {
        width = 10 * width + u16::from(*byte - b'0');
        if width > u16::from(MAX_WIDTH) {
            return None;
        }
    }
    Some(width as u8)
}

/// The slot of this name and width, where the name is one and has a place. Linear in the name and in the names.
fn slot_named(names: &mut Names, name: &str, width: u8) -> Result<Option<Segment>, OutOfMemory>
    ensures { IfOk result (λ found. Finds (slot_named names.old name.now width) (option_map plain_segment found) names.new) }
{
    if !is_name(name) {
        return Ok(None);
    }
    match names.place_of(name)? {
        Some(place) => Ok(Some(Segment::Slot { place, width })),
        None => Ok(None),
    }
}

/// The slot of which this stands between `<` and `>`, if it is one. Linear in the text and in the names.
///
/// It may report that it found no memory for a new name.
pub fn read_slot(names: &mut Names, body: &str) -> Result<Option<Segment>, OutOfMemory>
    ensures { IfOk result (λ found. Finds (slot_of_body names.old body.now) (option_map plain_segment found) names.new) }
{
    let (name, width) = cut_at(body, ':');
    match width {
        None => slot_named(names, name, 0),
        Some(width) => match width_of(width) {
            Some(width) => slot_named(names, name, width),
            None => Ok(None),
        },
    }
}

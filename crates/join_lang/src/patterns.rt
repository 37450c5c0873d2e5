// Pattern tokens.
ghost use Rattle.std.specs.Prelude.{◌≡◌, ◌-◌, length, take, drop, true, false, IfOk, option_map, MatchOption};
ghost use Rattle.semantics.specs.Patterns.{segments};
ghost use Rattle.protocol.specs.JoinText.{is_bracketed, read_segment, read_segments, read_pattern};
ghost use Rattle.key_pattern.specs.Plain.{plain_segment, plain_segments};
ghost use Rattle.join_lang.specs.Readings.{Finds};

use crate::cut::cut_at;
use crate::names::Names;
use crate::slots::read_slot;
use key_pattern::segment::is_literal;
use key_pattern::{Pattern, Segment};
use out_of_memory::OutOfMemory;
use std::alloc::Global;

/// The most bytes of a pattern token.
pub const MAX_PATTERN_BYTES: usize = 512;

/// What stands between `<` and `>`, where the text begins and ends with them.
fn body_of(text: &str) -> Option<&str>
    ensures { MatchOption result (is_bracketed text.now ≡ false)
        (λ body. (is_bracketed text.now ≡ true) × (body.now ≡ take (length text.now - 2) (drop 1 text.now))) }
{
    match text.strip_prefix('<') {
        Some(behind) => behind.strip_suffix('>'),
        None => None,
    }
}

/// The segment that a text is, if it is one: a slot in brackets, or a literal. Linear in the text and in the names.
fn read_segment(
    alloc: Global,
    names: &mut Names,
    text: &str,
) -> Result<Option<Segment>, OutOfMemory>
    ensures { IfOk result (λ found. Finds (read_segment names.old text.now) (option_map plain_segment found) names.new) }
{
    match body_of(text) {
        Some(body) => read_slot(names, body),
        None => {
            if !is_literal(text) {
                return Ok(None);
            }
            Ok(Some(Segment::Literal(String::from_str(alloc, text)?)))
        }
    }
}

/// The segments of a token, if each is one.
fn read_segments(
    alloc: Global,
    names: &mut Names,
    token: &str,
) -> Result<Option<Vec<Segment>>, OutOfMemory>
    ensures { IfOk result (λ found. Finds (read_segments names.old (segments token.now)) (option_map (λ list. plain_segments list.items) found) names.new) }
{
    let mut list = Vec::new(alloc);
    let mut rest = Some(token);
    while let Some(text) = rest {
        let (first, later) = cut_at(text, '|');
        match read_segment(alloc, names, first)? {
            Some(segment) => list.push(segment)?,
            None => return Ok(None),
        }
        rest = later;
    }
    Ok(Some(list))
}

/// The pattern that a token is, if it is one of at most 512 bytes. Names that it brings are added. Linear in the token,
/// with the names for each slot.
///
/// It may report that it found no memory for the pattern or a new name.
pub fn read_pattern(
    alloc: Global,
    names: &mut Names,
    token: &str,
) -> Result<Option<Pattern>, OutOfMemory>
    ensures { IfOk result (λ found. Finds (read_pattern names.old token.now) found names.new) }
{
    if token.len() > MAX_PATTERN_BYTES {
        return Ok(None);
    }
    match read_segments(alloc, names, token)? {
        Some(list) => Ok(Pattern::make(list).ok()),
        None => Ok(None),
    }
}

// The segments of a pattern.
ghost use Rattle.std.specs.Prelude.{◌≡◌, IfOk, length};
ghost use Rattle.std.specs.List.{list_all};
ghost use Rattle.semantics.specs.Patterns.{is_literal_byte, is_literal, is_segment, segments_meet};
ghost use Rattle.key_pattern.specs.Plain.{plain_segment};

use out_of_memory::OutOfMemory;
use std::alloc::Global;

/// The number of places that slots may have.
pub const PLACES: u8 = 16;

/// The most bytes that a slot's width asks for.
pub const MAX_WIDTH: u8 = 64;

/// A segment of a pattern.
#[derive(Debug, Drop)]
pub enum Segment {
    /// It stands for itself.
    Literal(String),
    /// It stands for any text that is not empty and has no `|`, of `width` bytes where that is not 0. Slots of one place
    /// stand for one text.
    Slot { place: u8, width: u8 },
}

impl Segment {
    /// An equal segment, whose text is copied. Linear in the text.
    pub fn copy(&self, alloc: Global) -> Result<Segment, OutOfMemory>
        ensures { IfOk result (λ copy. plain_segment copy ≡ plain_segment self.now) }
    {
        match self {
            Segment::Literal(text) => {
                let text = String::from_str(alloc, text.as_str())?;
                Ok(Segment::Literal(text))
            }
            Segment::Slot { place, width } => Ok(Segment::Slot {
                place: *place,
                width: *width,
            }),
        }
    }

    /// Whether the segment may stand in a pattern: its literal is one, its place is below 16 and its width at most 64.
    /// Linear in its text.
    pub fn is_segment(&self) -> bool
        ensures { result ≡ is_segment (plain_segment self.now) }
    {
        match self {
            Segment::Literal(text) => is_literal(text.as_str()),
            Segment::Slot { place, width } => *place < PLACES && *width <= MAX_WIDTH,
        }
    }

    /// Whether some text may be both segments, as far as literals and widths tell: they are no two unequal literals, no
    /// two unequal given widths, and no literal whose length is not the other's given width. Linear in the literals.
    pub fn meets(&self, other: &Segment) -> bool
        ensures { result ≡ segments_meet (plain_segment self.now) (plain_segment other.now) }
    {
        match self {
            Segment::Literal(text) => match other {
                Segment::Literal(other) => text.as_str() == other.as_str(),
                Segment::Slot { width, .. } => *width == 0 || text.len() == usize::from(*width),
            },
            Segment::Slot { width, .. } => match other {
                Segment::Literal(text) => *width == 0 || text.len() == usize::from(*width),
                Segment::Slot { width: asked, .. } => *width == 0
                    || *asked == 0
                    || *width == *asked,
            },
        }
    }
}

/// Whether a text may be a literal: it has a byte or more, and none of `|`, `<`, `>`, the space and the characters below
/// U+0020. Linear in the text.
pub fn is_literal(text: &str) -> bool
    ensures { result ≡ is_literal text.now }
{
    !text.is_empty() && has_literal_bytes(text)
}

/// Whether each byte of a text may stand in a literal.
fn has_literal_bytes(text: &str) -> bool
    ensures { result ≡ list_all is_literal_byte text.now }
{
    text.as_bytes().iter().all(|byte| is_literal_byte(*byte))
}

/// Whether a byte may stand in a literal.
fn is_literal_byte(byte: u8) -> bool
    ensures { result ≡ is_literal_byte byte }
{
    byte > b' ' && byte != b'<' && byte != b'>' && byte != b'|'
}

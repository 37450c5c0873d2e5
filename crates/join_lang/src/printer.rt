// A join, printed as its canonical text.
ghost use Rattle.std.specs.Prelude.{◌≡◌, ◌++◌, map, string_bytes, IfOk, OnOk};
ghost use Rattle.protocol.specs.JoinText.{segment_print, pattern_print, operator_word, canonical_text};
ghost use Rattle.key_pattern.specs.Plain.{plain_segment, plain_segments};
ghost use Rattle.join_types.specs.Plain.{plain_op, plain_kind};
ghost use Rattle.join_lang.specs.Printed.{kind_print, segments_print, sources_print};

use join_types::{Join, JoinSource, Kind, Op};
use key_pattern::{Pattern, Segment};
use out_of_memory::OutOfMemory;
use std::alloc::Global;

/// The word of an operator.
fn operator_word(op: Op) -> &'static str
    ensures { result.now ≡ operator_word (plain_op op) }
{
    match op {
        Op::Check => "check",
        Op::Copy => "copy",
        Op::Count => "count",
        Op::Sum => "sum",
        Op::Min => "min",
        Op::Max => "max",
    }
}

/// The word of a kind behind a space; nothing for `push`.
fn kind_text(kind: Kind) -> &'static str
    ensures { result.now ≡ kind_print (plain_kind kind) }
{
    match kind {
        Kind::Push => "",
        Kind::Pull => " pull",
    }
}

/// Adds a segment as it was written.
fn push_segment(text: &mut String, names: &[String], segment: &Segment) -> Result<(), OutOfMemory>
    ensures { OnOk result (string_bytes text.new ≡ string_bytes text.old ++ segment_print (map string_bytes names.now) (plain_segment segment.now)) }
{
    match segment {
        Segment::Literal(literal) => text.push_str(literal.as_str())?,
        Segment::Slot { place, width } => {
            text.push_str("<")?;
            if let Some(name) = names.get(usize::from(*place)) {
                text.push_str(name.as_str())?;
            }
            if *width != 0 {
                write!(text, ":{width}")?;
            }
            text.push_str(">")?;
        }
    }
    Ok(())
}

/// Adds segments, each behind `|`.
fn push_segments(
    text: &mut String,
    names: &[String],
    segments: &[Segment],
) -> Result<(), OutOfMemory>
    ensures { OnOk result (string_bytes text.new ≡ string_bytes text.old ++ segments_print (map string_bytes names.now) (plain_segments segments.now)) }
{
    for segment in segments {
        text.push_str("|")?;
        push_segment(text, names, segment)?;
    }
    Ok(())
}

/// Adds a pattern.
fn push_pattern(text: &mut String, names: &[String], pattern: &Pattern) -> Result<(), OutOfMemory>
    ensures { OnOk result (string_bytes text.new ≡ string_bytes text.old ++ pattern_print (map string_bytes names.now) pattern.now) }
{
    if let Some((first, others)) = pattern.segments().split_first() {
        push_segment(text, names, first)?;
        push_segments(text, names, others)?;
    }
    Ok(())
}

/// Adds sources, each behind a space.
fn push_sources(
    text: &mut String,
    names: &[String],
    sources: &[JoinSource],
) -> Result<(), OutOfMemory>
    ensures { OnOk result (string_bytes text.new ≡ string_bytes text.old ++ sources_print (map string_bytes names.now) sources.now) }
{
    for source in sources {
        text.push_str(" ")?;
        text.push_str(operator_word(source.op))?;
        text.push_str(" ")?;
        push_pattern(text, names, &source.pattern)?;
    }
    Ok(())
}

/// The canonical text of a join: one space between tokens, none before or after, and no `push`. Linear in the text.
///
/// It may report that it found no memory for the text.
pub fn print(alloc: Global, join: &Join) -> Result<String, OutOfMemory>
    ensures { IfOk result (λ text. string_bytes text ≡ canonical_text join.now) }
{
    let names = join.names.as_slice();
    let mut text = String::new(alloc);
    push_pattern(&mut text, names, &join.output)?;
    text.push_str(" =")?;
    text.push_str(kind_text(join.kind))?;
    push_sources(&mut text, names, join.sources.as_slice())?;
    Ok(text)
}

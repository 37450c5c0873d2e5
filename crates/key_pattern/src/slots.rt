// Texts for the slots of patterns, by place.
ghost use Rattle.std.specs.Prelude.{◌≡◌, ◌↔◌, IfOk, IsTrue, IsSome, Some, None, ◌<◌, ◌≤◌, ◌+◌, ℕ, take, slice_set, option_map, true};
ghost use Rattle.std.specs.Option.{option_copied};
ghost use Rattle.std.specs.String.{string_bytes};
ghost use Rattle.semantics.specs.Patterns.{no_slots, text_at, is_segment};
ghost use Rattle.key_ranges.specs.Containing.{with_slot, only};
ghost use Rattle.key_pattern.specs.Plain.{plain_segment};
ghost use Rattle.key_pattern.specs.Places.{AreSlots, IsSegmentText, padded};

use crate::pattern::Pattern;
use crate::segment::Segment;
use out_of_memory::OutOfMemory;
use std::alloc::Global;
use std::marker::Model;

/// Borrowed texts at some of 16 places, none of them empty and none with a `|`.
#[derive(Debug, Drop)]
pub struct Slots<'a> {
    texts: [Option<&'a str>; 16],
}

impl<'a> Model for Slots<'a> {
    ghost use Rattle.semantics.specs.Patterns as plain;
    ghost use Rattle.key_pattern.specs.Places.{lent_texts, AreSlots};

    ghost Value = { plain.Slots };

    ghost view = { λ s. lent_texts s.texts };

    ghost invariant = { λ s. AreSlots (lent_texts s.texts) };
}

impl<'a> Slots<'a> {
    /// The slots with no text.
    pub fn none() -> Slots<'a>
        ensures { result ≡ no_slots }
    {
        Slots { texts: [None; 16] }
    }

    /// The text at a place; none where no text was given to it, as at the places from 16 on.
    pub fn at(&self, place: u8) -> Option<&'a str>
        ensures text { option_copied result ≡ text_at place self.now }
        ensures slots { AreSlots self.now }
    {
        let place = usize::from(place);
        if place < self.texts.len() {
            self.texts[place]
        } else {
            None
        }
    }

    /// Equal slots, which borrow the same texts. It takes constant time.
    pub fn copy(&self) -> Slots<'a>
        ensures copy { result ≡ self.now }
        ensures slots { AreSlots self.now }
    {
        Slots { texts: self.texts }
    }

    /// The number of places up to the last one that has a text.
    fn used(&self) -> u8
        ensures within { result ≤ 16 }
        ensures all { padded (take result self.now) ≡ self.now }
        ensures last { (n : ℕ) → result ≡ n + 1 → IsSome (text_at n self.now) }
    {
        let mut used = 0;
        for place in 0..16u8 {
            if self.at(place).is_some() {
                used = place + 1;
            }
        }
        used
    }

    /// Gives the text to the place, in place of any that stood there.
    pub(crate) fn set(&mut self, place: u8, text: &'a str)
        requires place { place < 16 }
        requires text { IsSegmentText text.now }
        ensures { self.new ≡ slice_set self.old place (Some text.now) }
    {
        self.texts[usize::from(place)] = Some(text);
    }

    /// Leaves no text at the place.
    pub(crate) fn clear(&mut self, place: u8)
        requires { place < 16 }
        ensures { self.new ≡ slice_set self.old place None }
    {
        self.texts[usize::from(place)] = None;
    }

    /// The texts at the places of the slots of `out`, and no text at any other place. Linear in the segments of `out`,
    /// and nothing is copied.
    pub fn only(&self, out: &Pattern) -> Slots<'a>
        ensures { result ≡ only out.now self.now }
    {
        let mut kept = Slots::none();
        for segment in out.segments() {
            self.give(segment, &mut kept);
        }
        kept
    }

    /// Gives the kept slots the text at the place of the segment, where that is a slot and there is one.
    fn give(&self, segment: &Segment, kept: &mut Slots<'a>)
        requires { is_segment (plain_segment segment.now) ≡ true }
        ensures { kept.new ≡ with_slot self.now kept.old (plain_segment segment.now) }
    {
        match segment {
            Segment::Literal(_) => {}
            Segment::Slot { place, .. } => match self.at(*place) {
                None => {}
                Some(text) => kept.set(*place, text),
            },
        }
    }
}

/// Slots that own their texts. They take room for the places up to the last one that has a text.
#[derive(Debug, Drop)]
pub struct SlotTexts {
    texts: Vec<Option<String>>,
}

impl Model for SlotTexts {
    ghost use Rattle.semantics.specs.Patterns as plain;
    ghost use Rattle.key_pattern.specs.Places.{owned_texts, AreSlots};

    ghost Value = { plain.Slots };

    ghost view = { λ s. owned_texts s.texts.items };

    ghost invariant = { λ s. AreSlots (owned_texts s.texts.items) };
}

impl SlotTexts {
    /// The texts of the slots, which are copied once. Linear in the texts.
    pub fn of(alloc: Global, slots: &Slots<'_>) -> Result<SlotTexts, OutOfMemory>
        ensures { IfOk result (λ texts. texts ≡ slots.now) }
    {
        let used = usize::from(slots.used());
        let mut texts = Vec::with_capacity(alloc, used)?;
        for text in slots.texts[..used].iter() {
            texts.push(own(alloc, *text)?)?;
        }
        Ok(SlotTexts { texts })
    }

    /// The slots, which borrow the texts. It takes constant time.
    pub fn lend(&self) -> Slots<'_>
        ensures lent { result ≡ self.now }
        ensures slots { AreSlots self.now }
    {
        let mut texts = [None; 16];
        for (place, text) in self.texts.iter().enumerate() {
            texts[place] = lend(text);
        }
        Slots { texts }
    }

    /// The text at a place; none where there is none, as at the places from 16 on.
    pub fn at(&self, place: u8) -> Option<&str>
        ensures text { option_copied result ≡ text_at place self.now }
        ensures slots { AreSlots self.now }
    {
        self.lend().at(place)
    }

    /// Whether both have the same text at each place. Linear in the texts.
    pub fn is_same(&self, other: &SlotTexts) -> bool
        ensures { IsTrue result ↔ (self.now ≡ other.now) }
    {
        let one = self.lend();
        let two = other.lend();
        for place in 0..16u8 {
            if one.at(place) != two.at(place) {
                return false;
            }
        }
        true
    }

    /// Equal slots, whose texts are copied. Linear in the texts.
    pub fn copy(&self, alloc: Global) -> Result<SlotTexts, OutOfMemory>
        ensures { IfOk result (λ copy. copy ≡ self.now) }
    {
        SlotTexts::of(alloc, &self.lend())
    }
}

/// A copy of the text, if there is one.
fn own(alloc: Global, text: Option<&str>) -> Result<Option<String>, OutOfMemory>
    ensures { IfOk result (λ own. option_map string_bytes own ≡ option_copied text.entry) }
{
    match text {
        None => Ok(None),
        Some(text) => Ok(Some(String::from_str(alloc, text)?)),
    }
}

/// The text, if there is one, which is borrowed.
fn lend(text: &Option<String>) -> Option<&str>
    ensures { option_copied result ≡ option_map string_bytes text.now }
{
    match text {
        None => None,
        Some(text) => Some(text.as_str()),
    }
}

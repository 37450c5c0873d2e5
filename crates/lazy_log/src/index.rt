// Noted slots by their texts.
ghost use Rattle.std.specs.Prelude.{◌≡◌, List, [], ◌∷◌, ◌++◌, is_some, IfOk, IfSome, IsTrue, OnOk};
ghost use Rattle.std.specs.List.{list_any};
ghost use Rattle.semantics.specs.Patterns.{Pattern as PlainPattern, Slots as PlainSlots, bind};
ghost use Rattle.lazy_log.specs.Held.{slots_of};
ghost use Rattle.lazy_log.specs.Index.{AreOwn, HasAnySought, HasShape, IsIndexOf, IsSought};

use crate::log::Noted;
use key_pattern::{Pattern, SlotTexts, Slots};
use key_space::Key;
use out_of_memory::OutOfMemory;
use std::alloc::Global;
use std::collections::BTreeSet;

/// Slots of an output in order, and of each set of places at which some of them have texts the slots of one. What is covered is
/// found by the texts of a key at these places.
#[derive(Debug, Drop)]
pub struct Index {
    pub slots: BTreeSet<SlotTexts>,
    pub shapes: Vec<SlotTexts>,
}

/// Whether the slots have texts at places of the output alone. Linear in the output.
fn are_own(output: &Pattern, slots: &SlotTexts) -> bool
    ensures { IsTrue result → AreOwn output.now slots.now }
{
    let lent = slots.lend();
    lent.only(output).has_places_of(&lent)
}

/// Whether one of the shapes has texts at the same places as the slots.
fn has_shape(shapes: &[SlotTexts], slots: &SlotTexts) -> bool
    ensures { IsTrue result → HasShape shapes.now slots.now }
{
    let lent = slots.lend();
    for shape in shapes {
        let other = shape.lend();
        if lent.has_places_of(&other) {
            return true;
        }
    }
    false
}

/// Adds the slots to the shapes, unless one has texts at the same places.
fn add_shape(
    alloc: Global,
    shapes: &mut Vec<SlotTexts>,
    slots: &SlotTexts,
) -> Result<(), OutOfMemory>
    ensures here { OnOk result (HasShape shapes.new.items slots.now) }
    ensures others { OnOk result ((other : PlainSlots) → HasShape shapes.old.items other → HasShape shapes.new.items other) }
{
    if has_shape(shapes.as_slice(), slots) {
        return Ok(());
    }
    let copy = slots.copy(alloc)?;
    shapes.push(copy)?;
    Ok(())
}

/// Whether slots of the set are those that were found, at the places of the shape.
fn has_at(
    alloc: Global,
    slots: &BTreeSet<SlotTexts>,
    found: &Slots<'_>,
    shape: &SlotTexts,
) -> Result<bool, OutOfMemory>
    ensures { IfOk result (IsSought slots.now.keys found.now shape.now) }
{
    let places = shape.lend();
    let at = found.at_places_of(&places);
    let sought = SlotTexts::of(alloc, &at)?;
    let has = slots.contains(&sought);
    Ok(has)
}

/// Whether slots of the set are those that were found, at the places of one of the shapes.
fn has_any(
    alloc: Global,
    slots: &BTreeSet<SlotTexts>,
    found: &Slots<'_>,
    shapes: &[SlotTexts],
) -> Result<bool, OutOfMemory>
    ensures { IfOk result (HasAnySought slots.now.keys found.now shapes.now) }
{
    for shape in shapes {
        let has = has_at(alloc, slots, found, shape)?;
        if has {
            return Ok(true);
        }
    }
    Ok(false)
}

impl Index {
    /// No slots. Nothing is allocated.
    fn new(alloc: Global) -> Index
        ensures { (output : PlainPattern) → IsIndexOf output [] result }
    {
        let slots = BTreeSet::new(alloc);
        let shapes = Vec::new(alloc);
        Index { slots, shapes }
    }

    /// Adds a copy of the slots. Logarithmic in the slots, and linear in the shapes. On `OutOfMemory` a part may have been added.
    fn add(&mut self, alloc: Global, slots: &SlotTexts) -> Result<(), OutOfMemory>
        ensures { OnOk result ((output : PlainPattern) (noted : List PlainSlots) → IsIndexOf output noted self.old → AreOwn output slots.now → IsIndexOf output (noted ++ slots.now ∷ []) self.new) }
    {
        add_shape(alloc, &mut self.shapes, slots)?;
        let lent = slots.lend();
        let copy = SlotTexts::of(alloc, &lent)?;
        self.slots.insert(copy)?;
        Ok(())
    }

    /// Whether the key fits the output under some of the noted slots. Logarithmic in them for each of the shapes.
    pub fn covers(&self, alloc: Global, output: &Pattern, key: &Key) -> Result<bool, OutOfMemory>
        ensures { IfOk result (λ covered. (noted : List PlainSlots) → IsIndexOf output.now noted self.now → covered ≡ list_any (λ slots. is_some (bind output.now key.now slots)) noted) }
    {
        let none = Slots::none();
        let Some(found) = output.matches(key, &none) else {
            return Ok(false);
        };
        let covered = has_any(alloc, &self.slots, &found, self.shapes.as_slice())?;
        Ok(covered)
    }
}

/// The index with the slots more, if there is one and they have texts at places of the output alone; else none.
pub fn with_slots(
    alloc: Global,
    output: &Pattern,
    index: Option<Index>,
    slots: &SlotTexts,
) -> Result<Option<Index>, OutOfMemory>
    ensures { IfOk result (λ after. (noted : List PlainSlots) → IfSome index (IsIndexOf output.now noted) → IfSome after (IsIndexOf output.now (noted ++ slots.now ∷ []))) }
{
    let Some(mut index) = index else {
        return Ok(None);
    };
    if are_own(output, slots) {
        index.add(alloc, slots)?;
        return Ok(Some(index));
    }
    Ok(None)
}

/// The index of the noted slots, if these have texts at places of the output alone. It takes the search for the place of each.
fn index_of(alloc: Global, output: &Pattern, noted: &[Noted]) -> Result<Option<Index>, OutOfMemory>
    ensures { IfOk result (λ made. IfSome made (IsIndexOf output.now (slots_of noted.now))) }
{
    let mut index = Some(Index::new(alloc));
    for one in noted {
        index = with_slots(alloc, output, index, &one.slots)?;
    }
    Ok(index)
}

/// The index that stands beside the noted slots, which is made where there is none and it can be.
pub fn indexed(
    alloc: Global,
    output: &Pattern,
    index: Option<Index>,
    noted: &[Noted],
) -> Result<Option<Index>, OutOfMemory>
    requires { IfSome index (IsIndexOf output.now (slots_of noted.now)) }
    ensures { IfOk result (λ made. IfSome made (IsIndexOf output.now (slots_of noted.now))) }
{
    match index {
        None => index_of(alloc, output, noted),
        Some(index) => Ok(Some(index)),
    }
}

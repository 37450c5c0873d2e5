// At which places slots have texts.
ghost use Rattle.std.specs.Prelude.{◌≡◌, ◌<◌, length, IsTrue};
ghost use Rattle.semantics.specs.Patterns.{text_at};
ghost use Rattle.key_pattern.specs.SlotPlaces.{AreAtPlaces, HaveSamePlaces, kept_where};

use crate::slots::Slots;

impl<'a> Slots<'a> {
    /// Leaves no text at the place, where the others have none there.
    fn keep_at(&mut self, place: u8, others: &Slots<'_>)
        requires { place < 16 }
        ensures { self.new ≡ kept_where (text_at place others.now) place self.old }
    {
        match others.at(place) {
            Some(_) => {}
            None => self.clear(place),
        }
    }

    /// The texts at the places at which the others have one, and no text at any other place. It takes constant time, and nothing
    /// is copied.
    pub fn at_places_of(&self, others: &Slots<'_>) -> Slots<'a>
        ensures at { AreAtPlaces self.now others.now result }
        ensures places { length result ≡ 16 }
    {
        let mut kept = self.copy();
        for place in 0..16u8 {
            kept.keep_at(place, others);
        }
        kept
    }

    /// Whether both have texts at the same places. It takes constant time.
    pub fn has_places_of(&self, others: &Slots<'_>) -> bool
        ensures { IsTrue result → HaveSamePlaces self.now others.now }
    {
        for place in 0..16u8 {
            if self.at(place).is_some() != others.at(place).is_some() {
                return false;
            }
        }
        true
    }
}

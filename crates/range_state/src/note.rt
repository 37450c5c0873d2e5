// One note.
use key_pattern::SlotTexts;
use key_space::Key;
use std::marker::Model;

/// What is noted.
#[derive(Debug, Drop)]
pub enum Marked {
    /// One output key.
    Key(Key),
    /// Slots of the output, for every key that fits it under them.
    Slots(SlotTexts),
}

/// A note, and the position at which it was made.
#[derive(Debug, Drop)]
pub struct Note {
    /// The position.
    pub position: u64,
    /// What is noted.
    pub mark: Marked,
}

impl Model for Note {
    ghost use Rattle.kept_ranges.specs.Notes.{Note as PlainNote};
    ghost use Rattle.range_state.specs.PlainNotes.{plain_mark};

    ghost Value = { PlainNote };

    ghost view = { λ n. record { position = n.position; mark = plain_mark n.mark } };
}

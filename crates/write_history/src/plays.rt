// The kinds of step on the table, by what each tells.
ghost use Rattle.write_history.specs.Steps.{took, freed, looked, passing, raised, pinned, marked, reread, entered, agreed, dealing, dealt, note_of, informed, read_note};
ghost use Rattle.write_history.specs.declared.known.Mark.TheVariants.{Free as NotPinned, Noted};

use crate::known::Known;
use crate::log::Log;
use atomic_table::{Join, Play, Split};

/// Take the turn, and the log with it.
pub(crate) struct Take;

impl Play<Log, Known> for Take {
    ghost then = { λ _. took };
}

/// Put the log back, and free the turn.
pub(crate) struct Free;

impl Play<Log, Known> for Free {
    ghost then = { λ _. freed };
}

/// Look under the turn.
pub(crate) struct Look;

impl Play<Log, Known> for Look {
    ghost then = { λ _. looked };
}

/// Enter.
pub(crate) struct Enter;

impl Play<Log, Known> for Enter {
    ghost then = { λ _. entered };
}

/// Look at the next word of a pass, under the turn.
pub(crate) struct LookOn;

impl Play<Log, Known> for LookOn {
    ghost then = { λ _. passing };
}

/// Raise the floor, under the turn.
pub(crate) struct Raise;

impl Play<Log, Known> for Raise {
    ghost then = { λ _. raised };
}

/// Pin the pass, under the turn.
pub(crate) struct Pin;

impl Play<Log, Known> for Pin {
    ghost then = { λ _. pinned };
}

/// Take the pin away.
pub(crate) struct Unpin;

impl Play<Log, Known> for Unpin {
    ghost then = { λ _. marked NotPinned };
}

/// Note a position.
pub(crate) struct NoteAt;

impl Play<Log, Known> for NoteAt {
    ghost then = { λ step. marked (Noted step.first) };
}

/// Look at the pass's own word.
pub(crate) struct LookAtOwn;

impl Play<Log, Known> for LookAtOwn {
    ghost then = { λ _. reread };
}

/// Look without the turn.
pub(crate) struct Agree;

impl Play<Log, Known> for Agree {
    ghost then = { λ _. agreed };
}

/// Give out the next number.
pub(crate) struct Deal;

impl Split<Known> for Deal {
    ghost left = { dealing };

    ghost right = { dealt };
}

/// Note what was seen, and read the note.
pub(crate) struct Note;

impl Split<Known> for Note {
    ghost left = { λ v. v };

    ghost right = { note_of };
}

impl Join<Known> for Note {
    ghost both = { informed };

    ghost spent = { read_note };
}

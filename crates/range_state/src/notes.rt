// Notes in the order in which they were made.
ghost use Rattle.std.specs.Prelude.{◌≡◌, ℕ, ◌<◌, ◌≤◌, ◌⊎◌, [], ◌∷◌, length, IfOk, OnOk, OnErr, option_map, unwrap_or};
ghost use Rattle.kept_ranges.specs.Notes.{note_limit, noted};

use crate::note::Note;
use circular_buffer::HeapCircularBuffer;
use out_of_memory::OutOfMemory;
use std::alloc::Global;
use std::marker::Model;

/// The most notes that are kept.
const NOTE_LIMIT: usize = 256;

/// The room that the first notes take.
const FIRST_ROOM: usize = 4;

/// The last notes, at most 256, and the position from which they are complete. The room grows with the notes.
#[derive(Drop)]
pub struct Notes {
    start: u64,
    ring: HeapCircularBuffer<Note>,
}

impl Model for Notes {
    ghost use Rattle.std.specs.Prelude.{◌≤◌};
    ghost use Rattle.kept_ranges.specs.Notes.{Notes as PlainNotes, note_limit};

    ghost Value = { PlainNotes };

    ghost view = { λ n. record { start = n.start; list = n.ring.items } };

    ghost invariant = { λ n. n.ring.capacity ≤ note_limit };
}

/// Makes room for one note more, unless there is room, or as much as there may be.
fn make_room(ring: &mut HeapCircularBuffer<Note>) -> Result<(), OutOfMemory>
    requires { ring.old.capacity ≤ note_limit }
    ensures items { ring.new.items ≡ ring.old.items }
    ensures limit { ring.new.capacity ≤ note_limit }
    ensures held { length ring.new.items ≤ ring.new.capacity }
    ensures room { OnOk result ((length ring.new.items < ring.new.capacity) ⊎ (ring.new.capacity ≡ note_limit)) }
{
    let room = ring.capacity();
    if ring.is_full() && room < NOTE_LIMIT {
        let wider = (room * 2).clamp(FIRST_ROOM, NOTE_LIMIT);
        ring.resize(wider)?;
    }
    Ok(())
}

/// The position of a note, or the given one where there is none.
fn position_of(note: Option<Note>, otherwise: u64) -> u64
    ensures { result ≡ unwrap_or (option_map (λ n. n.position) note) otherwise }
{
    match note {
        Some(note) => note.position,
        None => otherwise,
    }
}

impl Notes {
    /// No notes, complete from a position on. Nothing is allocated yet, but it may report that it found no memory.
    pub fn new(alloc: Global, start: u64) -> Result<Notes, OutOfMemory>
        ensures start { IfOk result (λ notes. notes.start ≡ start) }
        ensures list { IfOk result (λ notes. notes.list ≡ []) }
    {
        let ring = HeapCircularBuffer::with_capacity(alloc, 0)?;
        Ok(Notes { start, ring })
    }

    /// The position from which they are complete.
    pub fn start(&self) -> u64
        ensures { result ≡ self.now.start }
    {
        self.start
    }

    /// The ring of the notes, in the order in which they were made.
    pub(crate) fn ring(&self) -> &HeapCircularBuffer<Note>
        ensures { result.now.items ≡ self.now.list }
    {
        &self.ring
    }

    /// Adds a note at the end; where there are 256 already, the first is pushed out, and the notes start at its position.
    /// It takes constant time but where the room grows, which copies all notes.
    ///
    /// On `OutOfMemory` the notes are unchanged.
    pub fn add(&mut self, note: Note) -> Result<(), OutOfMemory>
        ensures ok { OnOk result (self.new ≡ noted self.old (note ∷ [])) }
        ensures err { OnErr result (self.new ≡ self.old) }
    {
        make_room(&mut self.ring)?;
        let dropped = self.ring.push_back(note);
        self.start = position_of(dropped, self.start);
        Ok(())
    }
}

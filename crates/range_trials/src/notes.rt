// Notes with ample memory.
use key_space::Key;
use range_state::{Marked, Note, Notes};
use std::alloc::Global;
use std::process::Abort;
use std::test::Fail;

fn note_key(rt: &impl Abort, alloc: Global, position: u64) -> Note {
    let key = Key::read(alloc, "b|x").expect(rt, "a key");
    Note {
        position,
        mark: Marked::Key(key),
    }
}

/// The last 256 notes are kept, and they start where the last one that was pushed out was made.
#[test]
fn the_last_notes_are_kept(rt: HostRuntime) -> Result<(), Fail> {
    let alloc = rt.alloc();
    let mut notes = Notes::new(alloc, 1)?;
    for position in 2..259u64 {
        notes.add(note_key(&rt, alloc, position))?;
    }
    assert!(rt; notes.start() == 2);
    Ok(())
}

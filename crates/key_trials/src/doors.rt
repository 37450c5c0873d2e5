// Queues and bells behind their locks: what each call makes of the state. How threads wait for them is tried beside this
// program, by tests.
use door_queue::{BellState, DoorState, Heard, Next, Offered};
use std::alloc::Global;
use test_rows::{Answer, Fields};

/// Answers `door;MOST;CALL;..`, calls on one queue in turn: `offer ITEM`, `next` and `close`.
pub fn answer_door(alloc: Global, mut fields: Fields<'_>, out: &mut Answer) -> Option<()> {
    let most = fields.number() as usize;
    if most == 0 {
        return None;
    }
    let mut state = DoorState::new(alloc, most).ok()?;
    for call in fields.rest().split(';') {
        let mut words = Fields::words(call);
        match words.next() {
            "offer" => show_offered(state.offer(words.number()), out),
            "next" => show_next(state.next(), out),
            "close" => state.close(),
            _ => return None,
        }
    }
    Some(())
}

/// Adds what came of an item that was offered.
fn show_offered(offered: Offered<u64>, out: &mut Answer) {
    match offered {
        Offered::Kept => out.word("kept"),
        Offered::Full(item) => {
            out.word("full:");
            out.more_number(item);
        }
        Offered::Closed(item) => {
            out.word("closed:");
            out.more_number(item);
        }
    }
}

/// Adds what was next.
fn show_next(next: Next<u64>, out: &mut Answer) {
    match next {
        Next::Item(item) => {
            out.word("item:");
            out.more_number(item);
        }
        Next::Empty => out.word("empty"),
        Next::Closed => out.word("closed"),
    }
}

/// Answers `bell;CALL;..`, calls on one bell in turn: `ring`, `hear` and `close`. A ring is heard once.
pub fn answer_bell(fields: Fields<'_>, out: &mut Answer) -> Option<()> {
    let mut state = BellState::new();
    for call in fields.rest().split(';') {
        match call {
            "ring" => state.ring(),
            "hear" => out.word(match state.hear() {
                Heard::Closed => "closed",
                Heard::Work => "work",
                Heard::Quiet => "quiet",
            }),
            "close" => state.close(),
            _ => return None,
        }
    }
    Some(())
}

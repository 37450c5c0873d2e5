// What is printed for the answers to events.
ghost use Rattle.std.specs.Prelude.{◌≡◌, ◌++◌, List, IfOk, OnOk, map};
ghost use Rattle.core_events.specs.Events.{Event as PlainEvent, is_cell_event};
ghost use Rattle.core_events.specs.Plain.{AnswersPlainly};
ghost use Rattle.core_events.specs.Printed.{done_text, nothing_text, text_unless, event_texts, events_text};
ghost use Rattle.core_events.specs.PlainEvents.{plain_event, plain_done};

use core_events::{Done, Event};
use out_of_memory::OutOfMemory;
use request_codec::{Reply, text_value, write, write_row};
use std::alloc::Global;

/// Which of the events are done to cells, in order. Linear in them.
pub fn marks_of_cells(alloc: Global, events: &[Event]) -> Result<Vec<bool>, OutOfMemory>
    ensures { IfOk result (λ marks. marks.items ≡ map (λ event. is_cell_event (plain_event event)) events.now) }
{
    let mut marks = Vec::with_capacity(alloc, events.len())?;
    for event in events {
        marks.push(event.is_of_cell())?;
    }
    Ok(marks)
}

/// What is printed for an answer: the line of its reply for an answer to a write and for the pairs of a scan that is
/// finished, `["nothing"]` where there was nothing to do, and otherwise nothing. Linear in it.
fn done_text(alloc: Global, done: Done) -> Result<Vec<u8>, OutOfMemory>
    ensures { IfOk result (λ text. text.items ≡ done_text (plain_done done)) }
{
    let reply = match done {
        Done::Entered(position) => Reply::Done(position),
        Done::Refused(position, cause) => Reply::Refused(position, cause),
        Done::Finished { position, pairs } => Reply::Pairs(position, pairs),
        Done::Nothing => return nothing_text(alloc),
        Done::Begun(_) | Done::Answered | Done::Brought | Done::Mended | Done::Evicted => {
            return Ok(Vec::new(alloc));
        }
    };
    write(alloc, &reply)
}

/// The line that says that there was nothing to do.
fn nothing_text(alloc: Global) -> Result<Vec<u8>, OutOfMemory>
    ensures { IfOk result (λ text. text.items ≡ nothing_text) }
{
    let word = text_value(alloc, "nothing")?;
    write_row(alloc, vec![in alloc; word]?)
}

/// Adds what is printed for an event's answer, which is nothing for an event of a cell. Linear in it.
fn push_answer(
    alloc: Global,
    text: &mut Vec<u8>,
    is_of_cell: bool,
    done: Done,
) -> Result<(), OutOfMemory>
    ensures { OnOk result (text.new.items ≡ text.old.items ++ text_unless is_of_cell (plain_done done)) }
{
    if is_of_cell {
        return Ok(());
    }
    let line = done_text(alloc, done)?;
    text.extend_from_slice(line.as_slice())?;
    Ok(())
}

/// What is printed for events and their answers, one each, in order: for a write and a finished scan the line of the reply,
/// `["nothing"]` where a step of a scan had nothing to do, and otherwise nothing. The first list says which of the events
/// are done to cells, for whose answers nothing is printed. Linear in the answers.
///
/// It may report that it found no memory for the text.
pub fn answers_text(
    alloc: Global,
    of_cells: &[bool],
    answers: Vec<Done>,
) -> Result<Vec<u8>, OutOfMemory>
    ensures text { IfOk result (λ text. (events : List PlainEvent) → of_cells.now ≡ map is_cell_event events → text.items ≡ event_texts events (map plain_done answers.items)) }
    ensures plainly { IfOk result (λ text. (events : List PlainEvent) → of_cells.now ≡ map is_cell_event events → AnswersPlainly events (map plain_done answers.items) → text.items ≡ events_text events) }
{
    let mut text = Vec::new(alloc);
    let mut marks = of_cells;
    for done in answers {
        let Some((is_of_cell, others)) = marks.split_first() else {
            return Ok(text);
        };
        push_answer(alloc, &mut text, *is_of_cell, done)?;
        marks = others;
    }
    Ok(text)
}

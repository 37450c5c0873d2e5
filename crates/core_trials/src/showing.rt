// Answers as text.
use core_events::{Done, Event};
use join_types::Pair;
use scan_core::run_events;
use std::alloc::Global;
use std::test::Fail;

/// Adds the pairs, as `key=value` with a space before each.
fn show_pairs(text: &mut String, pairs: &[Pair]) -> Result<(), Fail> {
    for pair in pairs {
        text.push(' ')?;
        text.push_str(pair.key.text())?;
        text.push('=')?;
        text.push_str(pair.value.text())?;
    }
    Ok(())
}

/// Adds an answer, as a line.
pub fn show_done(alloc: Global, text: &mut String, done: &Done) -> Result<(), Fail> {
    match done {
        Done::Entered(position) => text.push_str(format!(in alloc; "ok {position}")?.as_str())?,
        Done::Refused(position, cause) => {
            text.push_str(format!(in alloc; "no {position} {cause:?}")?.as_str())?;
        }
        Done::Begun(position) => text.push_str(format!(in alloc; "begun {position}")?.as_str())?,
        Done::Finished { position, pairs } => {
            text.push_str(format!(in alloc; "finished {position}")?.as_str())?;
            show_pairs(text, pairs.as_slice())?;
        }
        Done::Answered => text.push_str("answered")?,
        Done::Brought => text.push_str("brought")?,
        Done::Mended => text.push_str("mended")?,
        Done::Evicted => text.push_str("evicted")?,
        Done::Nothing => text.push_str("nothing")?,
    }
    text.push('\n')?;
    Ok(())
}

/// What a core answers to the events, with so many cells, in which so many rows and ranges may be kept.
fn answer(alloc: Global, cells: u32, limit: u64, events: Vec<Event>) -> Result<Vec<Done>, Fail> {
    if cells == 0 || cells > 65536 || limit == 0 {
        return Err(Fail::from("there is no such core"));
    }
    Ok(run_events(alloc, cells, limit, events)?)
}

/// The answers to all of the events, as lines.
pub fn show_all(alloc: Global, cells: u32, limit: u64, events: Vec<Event>) -> Result<String, Fail> {
    let answers = answer(alloc, cells, limit, events)?;
    let mut text = String::new(alloc);
    for done in &answers {
        show_done(alloc, &mut text, done)?;
    }
    Ok(text)
}

/// The answers to the events that are of no cell, as lines.
pub fn show_scans(
    alloc: Global,
    cells: u32,
    limit: u64,
    events: Vec<Event>,
) -> Result<String, Fail> {
    let mut of_cells = Vec::new(alloc);
    for event in &events {
        of_cells.push(event.is_of_cell())?;
    }
    let answers = answer(alloc, cells, limit, events)?;
    if answers.len() != of_cells.len() {
        return Err(Fail::from("not each event is answered"));
    }
    let mut text = String::new(alloc);
    for (done, of_cell) in answers.iter().zip(of_cells.iter()) {
        if !*of_cell {
            show_done(alloc, &mut text, done)?;
        }
    }
    Ok(text)
}

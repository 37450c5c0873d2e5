// Scripts.
ghost use Rattle.std.specs.Prelude.{◌≡◌, IfOk, Some, option_map};
ghost use Rattle.protocol.specs.JoinsFile.{refused_row};
ghost use Rattle.protocol.specs.Replies.{fault_name};
ghost use Rattle.core_events.specs.Scripts.{script_events};
ghost use Rattle.request_codec.specs.Plain.{plain_fault};
ghost use Rattle.event_script.specs.Plain.{plain_refusal, plain_script};

use crate::event::read_event;
use core_events::Event;
use out_of_memory::OutOfMemory;
use request_codec::{LineFault, number_value, split_first_line, text_value, write_row};
use std::alloc::Global;

/// The first line of a script that is refused.
#[derive(Clone, Copy, Debug, PartialEq, Eq)]
pub struct RefusedLine {
    /// Its number: lines count from 1.
    pub number: u64,
    /// `json`, `form`, `key`, `value`, `range` or `syntax`.
    pub name: &'static str,
}

/// What the bytes of a script are read as.
#[derive(Debug, Drop)]
pub enum Script {
    /// Each line is an event.
    Events(Vec<Event>),
    /// A line is refused.
    Refused(RefusedLine),
}

/// The name of what a line is refused for. It takes constant time.
///
/// `OutOfMemory` comes only where memory ran out, which says nothing of the line.
fn fault_name(fault: LineFault) -> Result<&'static str, OutOfMemory>
    ensures { IfOk result (λ name. option_map fault_name (plain_fault fault) ≡ Some name.now) }
{
    match fault {
        LineFault::Json => Ok("json"),
        LineFault::Form => Ok("form"),
        LineFault::Key => Ok("key"),
        LineFault::Value => Ok("value"),
        LineFault::Range => Ok("range"),
        LineFault::Syntax(_) => Ok("syntax"),
        LineFault::OutOfMemory(memory) => Err(memory),
    }
}

/// The events of a script, one on each line, or its first line that is refused.
///
/// Lines end at byte 10; a last line without it counts where it is not empty. Each line is one JSON array (RFC 8259): a word
/// and the items behind it.
///
/// `Refused` comes exactly where a line is no event, with the first of `json`, `form`, `key`, `value`, `range` and `syntax`
/// that refuses it. It may report that it found no memory for the events. Linear in the bytes, with the names of a join for
/// each of its slots.
pub fn read_script(alloc: Global, bytes: &[u8]) -> Result<Script, OutOfMemory>
    ensures { IfOk result (λ script. plain_script script ≡ script_events bytes.now) }
{
    let mut events = Vec::new(alloc);
    let mut number = 1;
    let mut rest = bytes;
    while let Some((line, others)) = split_first_line(rest) {
        match read_event(alloc, line) {
            Ok(event) => events.push(event)?,
            Err(fault) => {
                let name = fault_name(fault)?;
                return Ok(Script::Refused(RefusedLine { number, name }));
            }
        }
        rest = others;
        number += 1;
    }
    Ok(Script::Events(events))
}

/// The row of a refused line: its number and its name. Linear in the row.
pub fn refused_text(alloc: Global, line: RefusedLine) -> Result<Vec<u8>, OutOfMemory>
    ensures { IfOk result (λ row. row.items ≡ refused_row (plain_refusal line)) }
{
    let word = text_value(alloc, "refused")?;
    let number = number_value(line.number);
    let name = text_value(alloc, line.name)?;
    write_row(alloc, vec![in alloc; word, number, name]?)
}

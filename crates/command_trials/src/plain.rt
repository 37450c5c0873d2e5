// Lines answered by plain evaluation.
use out_of_memory::OutOfMemory;
use plain_history::PlainHistory;
use request_codec::{LineFault, Reply, Request, read, write};
use std::alloc::Global;

/// Returns the reply to a line.
fn answer_line(
    alloc: Global,
    history: &mut PlainHistory,
    line: &str,
) -> Result<Reply, OutOfMemory> {
    match read(alloc, line.as_bytes()) {
        Ok(Request::Quit) => Ok(Reply::Bye),
        Ok(request) => history.answer(request),
        Err(fault) => Ok(Reply::Unread(fault)),
    }
}

/// Returns the line of a fault. Where no memory was found for its line, that is handed on.
fn line_of_fault(alloc: Global, fault: LineFault) -> Result<Vec<u8>, OutOfMemory> {
    match fault {
        LineFault::Json => write(alloc, &Reply::Unread(LineFault::Json)),
        LineFault::Form => write(alloc, &Reply::Unread(LineFault::Form)),
        LineFault::Key => write(alloc, &Reply::Unread(LineFault::Key)),
        LineFault::Value => write(alloc, &Reply::Unread(LineFault::Value)),
        LineFault::Range => write(alloc, &Reply::Unread(LineFault::Range)),
        LineFault::Syntax(at) => write(alloc, &Reply::Unread(LineFault::Syntax(at))),
        LineFault::OutOfMemory(memory) => Err(memory),
    }
}

/// Returns the line of a reply.
fn line_of(alloc: Global, reply: Reply) -> Result<Vec<u8>, OutOfMemory> {
    match reply {
        Reply::Unread(fault) => line_of_fault(alloc, fault),
        reply => write(alloc, &reply),
    }
}

/// Returns the replies to the lines of a text, up to one that ends the session. Each read evaluates all joins.
pub fn answer_lines(alloc: Global, text: &str) -> Result<Vec<u8>, OutOfMemory> {
    let mut history = PlainHistory::new(alloc);
    let mut replies = Vec::new(alloc);
    for line in text.lines() {
        let reply = answer_line(alloc, &mut history, line)?;
        let is_last = matches!(&reply, Reply::Bye);
        replies.extend_from_slice(line_of(alloc, reply)?.as_slice())?;
        if is_last {
            break;
        }
    }
    Ok(replies)
}

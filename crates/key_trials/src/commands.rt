// Command lines: which words form a command, and which one.
use command_words::{Command, read_command};
use std::alloc::Global;
use test_rows::{Answer, Fields, unescape};

/// Answers `command;WORDS`, with spaces between the words, and `command` alone, without a word: the command, or `none`.
pub fn answer(alloc: Global, fields: Fields<'_>, out: &mut Answer) -> Option<()> {
    let mut words = Vec::new(alloc);
    if fields.has_more() {
        for word in fields.rest().split(' ') {
            words.push(unescape(alloc, word).ok()?).ok()?;
        }
    }
    match read_command(words.as_slice()) {
        Some(command) => show_command(alloc, command, out),
        None => {
            out.word("none");
            Some(())
        }
    }
}

/// Adds the command as its `Debug` writes it.
fn show_command(alloc: Global, command: Command<'_>, out: &mut Answer) -> Option<()> {
    let text = format!(in alloc; "{command:?}").ok()?;
    out.escaped(text.as_str());
    Some(())
}

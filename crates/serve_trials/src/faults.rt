// Sources and sinks that fail: each read and each write once, and each byte as the last that is taken.
ghost use Rattle.std.specs.Prelude.{Some};

use pequod_commands::{Status, pequod};
use pq_io::{Failed, MemDoors, MemLink, MemShelf, MemSink, MemSource, OpenGate, Sink};
use std::alloc::{AllocError, Global};
use std::process::Abort;
use std::sync::Wait;
use std::test::Fail;
use std::thread::Threads;

/// A join, two puts and a scan.
const LINES: &str =
    r#"["join","t|<user>|<time>|<poster> = check s|<user>|<poster> copy p|<poster>|<time>"]
["put","s|ann|bob","1"]
["put","p|bob|100","Hi"]
["scan","t|ann|","t|ann}"]
"#;

/// Their replies.
const REPLIES: &str = r#"["ok",1]
["ok",2]
["ok",3]
["pairs",3,[["t|ann|100|bob","Hi"]]]
"#;

/// A file of joins.
const FEEDS: &str = r#"# feeds
page|<a>|<id>|k = check art|<a>|<id>  copy karma|<a>
karma|<a> = push count vote|<a>|<id>|<voter>
"#;

/// What is written about it.
const FEEDS_TEXT: &str = r#"["join",1,1,"page|<a>|<id>|k = check art|<a>|<id> copy karma|<a>"]
["join",2,0,"karma|<a> = count vote|<a>|<id>|<voter>"]
"#;

/// What a run is given: its words, and the bytes of its source and of the file `j`.
#[derive(Clone, Copy)]
struct Given<'a> {
    words: &'a [&'a str],
    bytes: &'a [u8],
    /// Whether each read gives one byte, or as much as there is room for.
    in_bytes: bool,
}

impl Given<'_> {
    /// Runs the top call into a sink. The read with this number fails.
    fn into_sink<R: AllocGlobal + Threads + Wait + Sync, W: Sink>(
        self,
        rt: &R,
        failing_read: usize,
        sink: &mut W,
    ) -> Result<Status, AllocError> {
        let alloc: Global = rt.alloc();
        let mut words = Vec::new(alloc);
        for word in self.words {
            words.push(String::from_str(alloc, word)?)?;
        }
        let count = if self.in_bytes { self.bytes.len() } else { 0 };
        let cuts = vec![in alloc; 1; count]?;
        let fails = vec![in alloc; failing_read]?;
        let mut source = MemSource::new(self.bytes.to_vec(alloc)?, cuts, fails);
        let files = vec![in alloc; (String::from_str(alloc, "j")?, self.bytes.to_vec(alloc)?)]?;
        let mut shelf = MemShelf::new(files, Vec::new(alloc));
        let mut doors: MemDoors<MemLink> = MemDoors::new(Vec::new(alloc), Vec::new(alloc));
        Ok(pequod(
            rt,
            alloc,
            words.as_slice(),
            &mut source,
            sink,
            &mut shelf,
            &mut doors,
            &OpenGate,
        ))
    }
}

/// Returns how many bytes the first lines have, so many of them, with their ends.
fn length_of(text: &str, lines: usize) -> usize {
    let mut length: usize = 0;
    for line in text.lines().take(lines) {
        length = length.saturating_add(line.len()).saturating_add(1);
    }
    length
}

/// Returns how many lines end in the bytes.
fn ended(bytes: &[u8]) -> usize {
    bytes.iter().filter(|byte| **byte == b'\n').count()
}

/// Returns how a run ends whose reads give a byte each, of which the read and the write with these numbers fail, and how many
/// replies are written.
fn wanted(read: usize, write: usize) -> (Status, usize) {
    let bytes = LINES.as_bytes();
    let taken = ended(&bytes[..bytes.len().min(read.saturating_sub(1))]);
    if write <= taken {
        (Status::WRITE_FAULT, write.saturating_sub(1))
    } else if read <= bytes.len().saturating_add(1) {
        (Status::READ_FAULT, taken)
    } else {
        (Status::DONE, 4)
    }
}

/// Asserts how the run ends, and what it has written.
fn expect_end<R: AllocGlobal + Threads + Wait + Abort + Sync>(
    rt: &R,
    read: usize,
    write: usize,
) -> Result<(), Fail> {
    let alloc: Global = rt.alloc();
    let mut sink = MemSink::new(alloc, vec![in alloc; write]?);
    let given = Given {
        words: &["run"],
        bytes: LINES.as_bytes(),
        in_bytes: true,
    };
    let status = given.into_sink(rt, read, &mut sink)?;
    let (end, replies) = wanted(read, write);
    let length = length_of(REPLIES, replies);
    let text = REPLIES.as_bytes();
    let is_right = status == end && sink.bytes() == &text[..length.min(text.len())];
    assert!(rt; is_right, "read {read}, write {write}");
    Ok(())
}

#[test]
fn each_read_and_each_write_may_fail(rt: HostRuntime) -> Result<(), Fail> {
    // A read for each byte, and one that finds the end: there is none after it, and no write after the last reply's.
    for read in 1..=LINES.len() + 2 {
        for write in 1..=5 {
            expect_end(&rt, read, write)?;
        }
    }
    Ok(())
}

/// A sink that takes one byte in each call.
#[derive(Drop)]
struct OneByte(MemSink);

impl Sink for OneByte {
    ghost taken = { λ s. Some s.0.taken };

    ghost faults = { λ s. s.0.log.faults };

    fn write(&mut self, bytes: &[u8]) -> Result<usize, Failed> {
        self.0.write(&bytes[..bytes.len().min(1)])
    }
}

#[test]
fn each_byte_may_be_the_last_that_is_taken(rt: HostRuntime) -> Result<(), Fail> {
    let alloc: Global = rt.alloc();
    for (words, bytes, written) in [
        (["run"].as_slice(), LINES, REPLIES),
        (["check", "j"].as_slice(), FEEDS, FEEDS_TEXT),
    ] {
        let given = Given {
            words,
            bytes: bytes.as_bytes(),
            in_bytes: false,
        };
        for write in 1..=written.len() + 1 {
            let mut sink = OneByte(MemSink::new(alloc, vec![in alloc; write]?));
            let status = given.into_sink(&rt, 0, &mut sink)?;
            let end = if write <= written.len() {
                Status::WRITE_FAULT
            } else {
                Status::DONE
            };
            let is_right = status == end && sink.0.bytes() == &written.as_bytes()[..write - 1];
            assert!(rt; is_right, "write {write}");
        }
    }
    Ok(())
}

/// So many puts of 18 bytes each, byte 10 counted, and spaces in the last one.
fn puts(alloc: Global, count: usize, spaces: usize) -> Result<String, AllocError> {
    let mut lines = String::new(alloc);
    for at in 0..count {
        lines.push_str(r#"["put","k|a","1"]"#)?;
        let blanks = if at.saturating_add(1) == count {
            spaces
        } else {
            0
        };
        lines.push_str("     ".get(..blanks).unwrap_or(""))?;
        lines.push('\n')?;
    }
    Ok(lines)
}

#[test]
fn inputs_may_be_longer_than_a_line(rt: HostRuntime) -> Result<(), Fail> {
    let alloc: Global = rt.alloc();
    let mut replies = String::new(alloc);
    for position in 1..=58_254 {
        writeln!(replies, "[\"ok\",{position}]")?;
    }
    // The puts have 4 bytes less than the longest line.
    for (spaces, length) in [(4, 1_048_576), (5, 1_048_577)] {
        let lines = puts(alloc, 58_254, spaces)?;
        let given = Given {
            words: &["run"],
            bytes: lines.as_bytes(),
            in_bytes: false,
        };
        let mut sink = MemSink::new(alloc, Vec::new(alloc));
        let status = given.into_sink(&rt, 0, &mut sink)?;
        assert!(rt; lines.len() == length && status == Status::DONE);
        assert!(rt; sink.bytes() == replies.as_bytes());
    }
    Ok(())
}

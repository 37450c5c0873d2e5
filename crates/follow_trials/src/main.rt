// Runs rows of text over `Feeder`: what each pull answers, which writes the replica has at last, and what the home was asked. Each
// line has the home's bytes, how many of them each read gives, the numbers of the reads and of the writes that fail, the numbers of
// the writes for which the replica finds no memory, and how many pulls there are, between `;`, and is printed again with its answer:
// the file `stdout` has the answers that are wanted. A line that begins with `#` is a heading. A row costs no proof.
//
// Dangerous here: nothing is compared. A row is as good as its line of `stdout`, which is written from what the specification says
// and never taken from what the program prints.
#![tactic(auto)]

mod replica;

ghost use Rattle.std.specs.Prelude.{◌≡◌, length};
ghost use Rattle.follow_node.specs.Feeders.{given};

use crate::replica::ListReplica;
use follow_node::{Feeder, Pulled, Replica};
use join_lang::print;
use join_types::Write;
use pq_io::{MemLink, MemSink, MemSource};
use std::alloc::Global;
use std::io;
use test_rows::{Answer, Fields, unescape};

/// Returns the numbers of a field, which stand between spaces.
fn read_numbers(alloc: Global, field: &str) -> Option<Vec<usize>> {
    let mut numbers = Vec::new(alloc);
    for word in field.split(' ') {
        if let Ok(number) = word.parse::<usize>() {
            numbers.push(number).ok()?;
        }
    }
    Some(numbers)
}

/// Returns a link that gives the bytes of the first field by the cuts of the second, and fails at the reads of the third and the
/// writes of the fourth.
fn read_link(alloc: Global, fields: &mut Fields<'_>) -> Option<MemLink> {
    let bytes = unescape(alloc, fields.next()).ok()?.into_bytes();
    let cuts = read_numbers(alloc, fields.next())?;
    let reads = read_numbers(alloc, fields.next())?;
    let writes = read_numbers(alloc, fields.next())?;
    let source = MemSource::new(bytes, cuts, reads);
    Some(MemLink::new(source, MemSink::new(alloc, writes)))
}

/// Tells how a pull ended.
fn tell_pulled(pulled: &Pulled, out: &mut Answer) {
    match pulled {
        Pulled::Level => out.word("level"),
        Pulled::HomeMemory => out.word("home-memory"),
        Pulled::Gone(position) => {
            out.word("gone");
            out.number(*position);
        }
        Pulled::Ahead(position) => {
            out.word("ahead");
            out.number(*position);
        }
        Pulled::Bad => out.word("bad"),
        Pulled::Ended => out.word("ended"),
        Pulled::Over => out.word("over"),
        Pulled::ReadFault => out.word("read-fault"),
        Pulled::WriteFault => out.word("write-fault"),
        Pulled::OutOfMemory(_) => out.word("memory"),
    }
}

/// Pulls so many times, one after another, and tells how each ended.
fn pull_often(
    alloc: Global,
    pulls: u64,
    link: &mut MemLink,
    replica: &mut ListReplica,
    out: &mut Answer,
) -> Option<()>
    requires { length replica.old ≡ 0 }
{
    let mut feeder = Feeder::new(alloc).ok()?;
    for _ in 0..pulls {
        let pulled = feeder.pull(alloc, link, replica);
        tell_pulled(&pulled, out);
    }
    Some(())
}

/// Tells a write.
fn tell_write(alloc: Global, write: &Write, out: &mut Answer) -> Option<()> {
    match write {
        Write::Put(key, value) => {
            out.word("put");
            out.escaped(key.text());
            out.escaped(value.text());
        }
        Write::Remove(key) => {
            out.word("remove");
            out.escaped(key.text());
        }
        Write::Declare(join) => {
            out.word("join");
            out.escaped(print(alloc, join).ok()?.as_str());
        }
        Write::Drop(position) => {
            out.word("drop");
            out.number(*position);
        }
    }
    Some(())
}

/// Adds the answer to a row. Nothing where a field is not what it has to be.
fn answer(alloc: Global, row: &str, out: &mut Answer) -> Option<()> {
    let mut fields = Fields::of(row);
    let mut link = read_link(alloc, &mut fields)?;
    let refused = read_numbers(alloc, fields.next())?;
    let mut replica = ListReplica::new(alloc, refused);
    pull_often(alloc, fields.number(), &mut link, &mut replica, out)?;
    out.word(":");
    for write in replica.writes() {
        tell_write(alloc, write, out)?;
    }
    out.word(":");
    out.escaped(str::from_utf8(link.bytes()).unwrap_or("no text"));
    Some(())
}

/// Adds a heading as it is, and a row with its answer.
fn answer_line(alloc: Global, line: &str, out: &mut Answer) {
    out.word(line);
    if line.starts_with('#') {
        return;
    }
    out.word("->");
    if answer(alloc, line, out).is_none() {
        out.word("unread");
    }
}

fn main(rt: HostRuntime) -> io::Result<()> {
    let alloc = rt.alloc();
    for line in rt.lines(alloc) {
        let row = line?;
        let mut out = Answer::new(alloc);
        answer_line(alloc, row.as_str(), &mut out);
        println!(rt; "{}", out.text())?;
    }
    Ok(())
}

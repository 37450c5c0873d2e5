// A link of `serve` whose scan is held at the gate, and one that is served meanwhile.
ghost use Rattle.std.specs.Prelude.{Some};
ghost use Rattle.pq_io.specs.Memory.{told_of_state};

use crate::copying::{Copying, Taken, cut_link, expect_taken, serve_by};
use out_of_memory::OutOfMemory;
use pequod_commands::Status;
use pq_io::{Failed, Finished, Gate, Link, MemLink};
use std::alloc::Global;
use std::sync::{Arc, Mutex, Wait};
use std::test::Fail;

/// How often a thread looks for a stage before it gives up.
const LOOKS: u32 = 10_000_000;

/// How far two links have come.
#[derive(Clone, Copy, Debug, PartialEq, Eq, PartialOrd, Ord)]
enum Stage {
    Begun,
    /// The scan of the first is at the gate.
    Held,
    /// The second has its first two replies.
    Passed,
    /// The first has all its replies.
    Answered,
}

/// How far the links have come, and whether a thread gave up.
#[derive(Clone, Copy)]
struct Progress {
    stage: Stage,
    gave_up: bool,
}

/// What the threads tell one another of it.
type Course = Arc<Mutex<Progress>>;

/// Tells the others that a stage has come.
fn come_to<R: Wait>(rt: &R, course: &Course, stage: Stage) {
    let mut progress = course.lock(rt);
    if progress.stage < stage {
        progress.stage = stage;
    }
}

/// Goes on when the stage has come.
fn wait_for<R: Wait>(rt: &R, course: &Course, stage: Stage) {
    for _ in 0..LOOKS {
        if course.lock(rt).stage >= stage {
            return;
        }
    }
    course.lock(rt).gave_up = true;
}

/// A gate that holds the ranges of the table `t` until the second link has its first two replies.
#[derive(Drop)]
struct Holding<'a, R> {
    rt: &'a R,
    course: Course,
}

impl<R: Wait> Gate for Holding<'_, R> {
    fn pass(&self, table: &str) {
        if table == "t" {
            come_to(self.rt, &self.course, Stage::Held);
            wait_for(self.rt, &self.course, Stage::Passed);
        }
    }
}

/// A copying link that gives each line when its stage has come, and comes to a stage itself with so many replies.
#[derive(Drop)]
struct Paced<'a, R> {
    link: Copying<'a, R>,
    course: Course,
    /// The stages before which it does not give its lines, that of the last line first.
    waits: Vec<Stage>,
    replies: usize,
    stage: Stage,
}

/// How many lines end in the bytes.
fn count_lines(bytes: &[u8]) -> usize {
    let mut count: usize = 0;
    for byte in bytes {
        if *byte == b'\n' {
            count = count.saturating_add(1);
        }
    }
    count
}

impl<R: Wait> Link for Paced<'_, R> {
    type Receipt = Finished<MemLink>;

    ghost left = { λ l. Some l.link.link.source.left };

    ghost taken = { λ l. Some l.link.link.sink.taken };

    ghost read_faults = { λ l. l.link.link.source.log.faults };

    ghost write_faults = { λ l. l.link.link.sink.log.faults };

    ghost tells = { λ r. told_of_state r.link r.refused };

    fn read(&mut self, into: &mut [u8]) -> Result<usize, Failed> {
        if let Some(stage) = self.waits.pop() {
            wait_for(self.link.rt, &self.course, stage);
        }
        self.link.read(into)
    }

    fn write(&mut self, bytes: &[u8]) -> Result<usize, Failed> {
        let count = self.link.write(bytes)?;
        let replies = count_lines(self.link.taken.lock(self.link.rt).as_slice());
        if replies == self.replies {
            come_to(self.link.rt, &self.course, self.stage);
        }
        Ok(count)
    }

    fn finish(self, refused: Option<OutOfMemory>) -> Finished<MemLink> {
        let Paced { link, .. } = self;
        link.finish(refused)
    }
}

/// A line, and the stage before which a link does not give it.
type Timed<'a> = (Stage, &'a str);

/// The join of timelines, two puts, and a scan that is held.
const OF_THE_HELD: [Timed; 4] = [
    (
        Stage::Begun,
        "[\"join\",\"t|<user>|<time>|<poster> = check s|<user>|<poster> copy p|<poster>|<time>\"]\n",
    ),
    (Stage::Begun, "[\"put\",\"s|ann|bob\",\"1\"]\n"),
    (Stage::Begun, "[\"put\",\"p|bob|100\",\"Hi\"]\n"),
    (Stage::Begun, "[\"scan\",\"t|ann|\",\"t|ann}\"]\n"),
];

const TO_THE_HELD: &str =
    "[\"ok\",1]\n[\"ok\",2]\n[\"ok\",3]\n[\"pairs\",3,[[\"t|ann|100|bob\",\"Hi\"]]]\n";

/// A put and a scan of another table meanwhile, and the held scan once more afterwards.
const OF_THE_OTHER: [Timed; 3] = [
    (Stage::Held, "[\"put\",\"q|1\",\"x\"]\n"),
    (Stage::Held, "[\"scan\",\"q|\",\"q}\"]\n"),
    (Stage::Answered, "[\"scan\",\"t|ann|\",\"t|ann}\"]\n"),
];

const TO_THE_OTHER: &str =
    "[\"ok\",4]\n[\"pairs\",4,[[\"q|1\",\"x\"]]]\n[\"pairs\",4,[[\"t|ann|100|bob\",\"Hi\"]]]\n";

/// The words of two workers, who serve without a joins file.
const TWO_WORKERS: [&str; 4] = ["serve", "127.0.0.1:7000", "--workers", "2"];

/// A link of the course that gives these lines and comes to the stage with so many replies, and the list of what it takes.
fn make_paced<'a, R: Wait>(
    rt: &'a R,
    alloc: Global,
    course: &Course,
    lines: &[Timed<'_>],
    replies: usize,
    stage: Stage,
) -> Result<(Paced<'a, R>, Taken), Fail> {
    let mut text = String::new(alloc);
    let mut cuts = Vec::new(alloc);
    let mut waits = Vec::new(alloc);
    for (stage, line) in lines {
        text.push_str(line)?;
        cuts.push(line.len())?;
        waits.push(*stage)?;
    }
    waits.reverse();
    let (link, taken) = cut_link(rt, alloc, text.as_str(), cuts, Vec::new(alloc))?;
    let paced = Paced {
        link,
        course: Arc::try_clone(course)?,
        waits,
        replies,
        stage,
    };
    Ok((paced, taken))
}

#[test]
fn a_held_scan_holds_no_other_link(rt: HostRuntime) -> Result<(), Fail> {
    let alloc: Global = rt.alloc();
    let begun = Progress {
        stage: Stage::Begun,
        gave_up: false,
    };
    let course = Arc::new(alloc, Mutex::new(begun))?;
    let (held, to_held) = make_paced(&rt, alloc, &course, &OF_THE_HELD, 4, Stage::Answered)?;
    let (other, to_other) = make_paced(&rt, alloc, &course, &OF_THE_OTHER, 2, Stage::Passed)?;
    let links = vec![in alloc; held, other]?;
    let gate = Holding {
        rt: &rt,
        course: Arc::try_clone(&course)?,
    };
    serve_by(
        &rt,
        &TWO_WORKERS,
        links,
        Vec::new(alloc),
        &gate,
        Status::DONE,
    )?;
    assert!(rt; !course.lock(&rt).gave_up);
    expect_taken(&rt, &to_held, TO_THE_HELD);
    expect_taken(&rt, &to_other, TO_THE_OTHER);
    Ok(())
}

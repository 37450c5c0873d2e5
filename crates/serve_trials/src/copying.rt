// Links in memory whose bytes are read when they are gone, and the top call over doors that give them.
ghost use Rattle.std.specs.Prelude.{Some};
ghost use Rattle.pq_io.specs.Memory.{told_of_state};

use out_of_memory::OutOfMemory;
use pequod_commands::{Status, pequod};
use pq_io::{Failed, Finished, Gate, Link, MemDoors, MemLink, MemShelf, MemSink, MemSource};
use std::alloc::Global;
use std::process::Abort;
use std::sync::{Arc, Mutex, Wait};
use std::test::Fail;
use std::thread::Threads;

/// The bytes that a link took, which are read when the link is gone.
pub type Taken = Arc<Mutex<Vec<u8>>>;

/// A link in memory that copies what it takes to a list.
#[derive(Drop)]
pub struct Copying<'a, R> {
    pub rt: &'a R,
    pub link: MemLink,
    pub taken: Taken,
}

impl<'a, R: Wait> Link for Copying<'a, R> {
    type Receipt = Finished<MemLink>;

    ghost left = { λ l. Some l.link.source.left };

    ghost taken = { λ l. Some l.link.sink.taken };

    ghost read_faults = { λ l. l.link.source.log.faults };

    ghost write_faults = { λ l. l.link.sink.log.faults };

    ghost tells = { λ r. told_of_state r.link r.refused };

    fn read(&mut self, into: &mut [u8]) -> Result<usize, Failed> {
        self.link.read(into)
    }

    fn write(&mut self, bytes: &[u8]) -> Result<usize, Failed> {
        let count = self.link.write(bytes)?;
        let mut taken = self.taken.lock(self.rt);
        let _ = taken.extend_from_slice(&bytes[..count]);
        Ok(count)
    }

    fn finish(self, refused: Option<OutOfMemory>) -> Finished<MemLink> {
        let Copying { link, .. } = self;
        link.finish(refused)
    }
}

/// Makes a link over these lines, of which a read gives as much as its cut says, whose writes with these numbers fail, and the
/// list of what it takes.
pub fn cut_link<'a, R: Wait>(
    rt: &'a R,
    alloc: Global,
    lines: &str,
    cuts: Vec<usize>,
    failing: Vec<usize>,
) -> Result<(Copying<'a, R>, Taken), Fail> {
    let lines = lines.as_bytes().to_vec(alloc)?;
    let source = MemSource::new(lines, cuts, Vec::new(alloc));
    let taken = Arc::new(alloc, Mutex::new(Vec::new(alloc)))?;
    let link = Copying {
        rt,
        link: MemLink::new(source, MemSink::new(alloc, failing)),
        taken: Arc::try_clone(&taken)?,
    };
    Ok((link, taken))
}

/// Makes such a link whose reads give as much as there is room for.
pub fn link_of<'a, R: Wait>(
    rt: &'a R,
    alloc: Global,
    lines: &str,
    failing: Vec<usize>,
) -> Result<(Copying<'a, R>, Taken), Fail> {
    cut_link(rt, alloc, lines, Vec::new(alloc), failing)
}

/// Asserts that a link took just these lines.
pub fn expect_taken<R: Wait + Abort>(rt: &R, taken: &Taken, wanted: &str) {
    assert!(rt; taken.lock(rt).as_slice() == wanted.as_bytes());
}

/// Runs the words over a gate and over doors that give the links and fail at these calls, where the shelf has one join in the file
/// `j`. Asserts that nothing is written to the sink, and that it ends with this status. Gives the doors.
pub fn serve_by<R, K, G>(
    rt: &R,
    words: &[&str],
    links: Vec<K>,
    failing: Vec<usize>,
    gate: &G,
    wanted: Status,
) -> Result<MemDoors<K>, Fail>
where
    R: AllocGlobal + Threads + Wait + Abort + Sync,
    K: Link + Send + Drop,
    <K as Link>::Receipt: Send,
    G: Gate + Sync,
{
    let alloc: Global = rt.alloc();
    let mut given = Vec::new(alloc);
    for word in words {
        given.push(String::from_str(alloc, word)?)?;
    }
    let joins = b"b|<x> = copy a|<x>\n".to_vec(alloc)?;
    let files = vec![in alloc; (String::from_str(alloc, "j")?, joins)]?;
    let mut shelf = MemShelf::new(files, Vec::new(alloc));
    let mut doors = MemDoors::new(links, failing);
    let mut input = MemSource::new(Vec::new(alloc), Vec::new(alloc), Vec::new(alloc));
    let mut sink = MemSink::new(alloc, Vec::new(alloc));
    let status = pequod(
        rt,
        alloc,
        given.as_slice(),
        &mut input,
        &mut sink,
        &mut shelf,
        &mut doors,
        gate,
    );
    assert!(rt; status == wanted && sink.bytes().is_empty());
    Ok(doors)
}

// Doors and links over TCP.
ghost use Rattle.std.specs.Prelude.{◌≡◌, ◌<◌, None, IfOk, length, take};
ghost use Rattle.std.specs.Io.{ReadsAtMost, WritesAtMost};
ghost use Rattle.std.specs.Io.KnownBytes.{Appends, ReadConsumes};
ghost use Rattle.pq_io.specs.Faults.{HasCause};
ghost use Rattle.pq_io.specs.Streams.{GivesNext, TakesFirst};

use crate::fault_count::FaultCount;
use crate::standard::{read_piece, write_piece};
use crate::tcp::accepting::{Accepting, after_error};
use crate::{Doors, Failed, Finished, Link};
use out_of_memory::OutOfMemory;
use std::io::{Read, Write};
use std::marker::Model;
use std::net::{Net, OpenListener, OpenStream, TcpListener};
use std::snapshot::Snapshot;
use std::thread;
use std::time::{Clock, Duration};

mod accepting;

/// How long the doors wait before they ask again, in milliseconds, where the system takes no connection now.
const MOMENT: u64 = 10;

/// A link over a stream that reads and writes. It tells neither what is left nor what was taken; `given` and `taken` say of each
/// call what the stream gave and took, as far as it tells it. Contracts see it as the stream and its two counts of faults. Its
/// receipt has no bytes, so that a list of any number of them takes no memory.
#[derive(Drop)]
pub struct TcpLink<S> {
    stream: S,
    read_faults: FaultCount,
    write_faults: FaultCount,
}

impl<S> Model for TcpLink<S> {
    ghost use Rattle.pq_io.specs.Links.{StreamLink};

    ghost Value = { StreamLink S };

    ghost view = { λ l. record { stream = l.stream; reads = l.read_faults.0; writes = l.write_faults.0 } };
}

impl<S> TcpLink<S> {
    /// The stream as a link that has no fault yet.
    pub fn new(stream: S) -> TcpLink<S>
        ensures { result ≡ record { stream = stream; reads = 0; writes = 0 } }
    {
        TcpLink {
            stream,
            read_faults: FaultCount::new(),
            write_faults: FaultCount::new(),
        }
    }

    /// Returns how many reads have failed, up to the last value of the type.
    pub fn failed_reads(&self) -> u64
        ensures { result ≡ self.now.reads }
    {
        self.read_faults.count()
    }

    /// Returns how many writes have failed, up to the last value of the type.
    pub fn failed_writes(&self) -> u64
        ensures { result ≡ self.now.writes }
    {
        self.write_faults.count()
    }
}

impl<S: Read + Write + Drop> Link for TcpLink<S> {
    type Receipt = Snapshot<Finished<TcpLink<S>>>;

    ghost left = { λ _. None };

    ghost taken = { λ _. None };

    ghost read_faults = { λ l. l.reads };

    ghost write_faults = { λ l. l.writes };

    ghost tells = { λ r. record {
      left = None;
      taken = None;
      read_faults = r.value.link.reads;
      write_faults = r.value.link.writes;
      refused = r.value.refused;
    } };

    /// Makes one read, which waits for bytes or for the end. Each error is a fault, also that the peer has closed the link
    /// with bytes on the way.
    fn read(&mut self, into: &mut [u8]) -> Result<usize, Failed>
        ensures bound { ReadsAtMost result into.new }
        ensures bytes { GivesNext None None result into.new }
        ensures given { ReadConsumes (S.remaining self.old.stream) (S.remaining self.new.stream) result into.new }
        ensures cause { HasCause self.old.reads self.new.reads result }
        ensures same_faults { self.new.writes ≡ self.old.writes }
    {
        read_piece(&mut self.stream, &mut self.read_faults, into)
    }

    /// Makes one write, which waits for room. Each error is a fault, also that the peer has closed the link.
    fn write(&mut self, bytes: &[u8]) -> Result<usize, Failed>
        ensures bound { WritesAtMost result bytes.now }
        ensures progress { 0 < length bytes.now → IfOk result (λ n. 0 < n) }
        ensures bytes { TakesFirst None None result bytes.now }
        ensures taken { IfOk result (λ n. Appends (S.contents self.old.stream) (S.contents self.new.stream) (take n bytes.now)) }
        ensures cause { HasCause self.old.writes self.new.writes result }
        ensures same_faults { self.new.reads ≡ self.old.reads }
    {
        write_piece(&mut self.stream, &mut self.write_faults, bytes)
    }

    /// Closes the stream.
    fn finish(self, refused: Option<OutOfMemory>) -> Snapshot<Finished<TcpLink<S>>> {
        let finished = Finished {
            link: self,
            refused,
        };
        Snapshot::of(&finished)
    }
}

/// Doors over a listener. What they hold is not told. Contracts see them as their count of faults.
#[derive(Drop)]
pub struct TcpDoors<'a, R: Net> {
    net: &'a R,
    listener: Option<R::Listener>,
    links_left: Option<u64>,
    faults: FaultCount,
}

impl<'a, R: Net> Model for TcpDoors<'a, R> {
    ghost use Rattle.std.specs.Prelude.{ℕ};

    ghost Value = { ℕ };

    ghost view = { λ d. d.faults.0 };
}

impl<'a, R: Net> TcpDoors<'a, R> {
    /// Doors that are not open yet, and close after so many links. 0 stands for no end.
    pub fn new(net: &'a R, links: u64) -> TcpDoors<'a, R>
        ensures { result ≡ 0 }
    {
        TcpDoors {
            net,
            listener: None,
            links_left: if links == 0 { None } else { Some(links) },
            faults: FaultCount::new(),
        }
    }

    /// How many calls have failed, up to the last value of the type.
    pub fn faults(&self) -> u64
        ensures { result ≡ self.now }
    {
        self.faults.count()
    }
}

/// Accepts a connection, and waits for it. Where one fails before it is accepted, the next is asked for. Where the system has no
/// descriptors or no buffers, or a firewall forbids, it is asked again after each moment, until connections that ended have given
/// some back, or the firewall lets one pass. None says that the listener fails, or failed 2^64 - 1 times.
fn accept_next<R: Net + Clock>(clock: &R, listener: &R::Listener) -> Option<R::Stream> {
    for _ in 0..u64::MAX {
        match listener.accept() {
            Ok((stream, _)) => return Some(stream),
            Err(error) => match after_error(&error) {
                Accepting::Again => {}
                Accepting::AfterAMoment => thread::sleep(clock, Duration::from_millis(MOMENT)),
                Accepting::Failed => return None,
            },
        }
    }
    None
}

impl<'a, R: Net + Clock> Doors for TcpDoors<'a, R>
where
    R::Stream: Send,
{
    type Wire = TcpLink<R::Stream>;

    ghost held = { λ _. None };

    ghost returned = { λ _. None };

    ghost opened = { λ _. None };

    ghost faults = { λ faults. faults };

    /// Listens at an address such as `127.0.0.1:7000`, in the place of where it listened before. Each error is a fault, and
    /// then it listens where it did.
    fn open_at(&mut self, address: &str) -> Result<(), Failed> {
        match TcpListener::bind(self.net, address) {
            Ok(listener) => {
                self.listener = Some(listener);
                Ok(())
            }
            Err(_) => Err(self.faults.raise()),
        }
    }

    /// Accepts a link, and waits for it, also where the system has no room for it yet. Its writes are sent at once, however small
    /// they are. It is a fault where none can be accepted, and where the doors are not open.
    fn next(&mut self) -> Result<Option<TcpLink<R::Stream>>, Failed> {
        if self.links_left == Some(0) {
            return Ok(None);
        }
        let Some(listener) = &self.listener else {
            return Err(self.faults.raise());
        };
        let Some(stream) = accept_next(self.net, listener) else {
            return Err(self.faults.raise());
        };
        self.links_left = self.links_left.map(|left| left.saturating_sub(1));
        // Where the peer has closed the stream already this may be refused, and then a read or a write fails.
        let _ = stream.set_nodelay(true);
        Ok(Some(TcpLink::new(stream)))
    }

    /// Lets go of them.
    fn take_back(&mut self, _receipts: Vec<Vec<Snapshot<Finished<TcpLink<R::Stream>>>>>)
        ensures same { self.new ≡ self.old }
    {}
}

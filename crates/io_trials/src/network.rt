// A network that fails when it is told to, and that is watched.
use std::alloc::{AllocError, Global};
use std::cell::Cell;
use std::io;
use std::net::{Net, OpenListener, SocketAddr, TcpListener, TcpStream};
use std::os::fd::{AsRawFd, RawFd};
use std::rc::Rc;
use std::time::{Clock, Duration};

/// What was seen of a network.
#[derive(Drop)]
pub struct Seen {
    /// Where its last listener listens.
    pub address: Cell<Option<SocketAddr>>,
    /// How many times a listener was asked to accept.
    pub accepts: Cell<usize>,
    /// How many pauses were made.
    pub pauses: Cell<usize>,
    /// A second handle of the last stream that was accepted.
    pub stream: Rc<Cell<Option<TcpStream>>>,
}

impl Seen {
    /// Returns what is seen before any call: nothing.
    pub fn new(alloc: Global) -> Result<Seen, AllocError> {
        Ok(Seen {
            address: Cell::new(None),
            accepts: Cell::new(0),
            pauses: Cell::new(0),
            stream: Rc::new(alloc, Cell::new(None))?,
        })
    }
}

/// The network of a host, but that the first accepts fail by these codes of the system. Its clock counts pauses and makes none.
#[derive(Drop)]
pub struct Watched<'a, R> {
    host: &'a R,
    codes: &'a [i32],
    seen: &'a Seen,
}

impl<'a, R> Watched<'a, R> {
    /// Returns the network of this host, whose first accepts fail by these codes, one each. What is seen of it is kept there.
    pub fn new(host: &'a R, codes: &'a [i32], seen: &'a Seen) -> Watched<'a, R> {
        Watched { host, codes, seen }
    }
}

/// A listener of that network.
#[derive(Drop)]
pub struct WatchedListener<'a> {
    inner: TcpListener,
    codes: &'a [i32],
    seen: &'a Seen,
}

impl<'a, R: Net<Stream = TcpStream, Listener = TcpListener>> Net for Watched<'a, R> {
    type Stream = TcpStream;

    type Listener = WatchedListener<'a>;

    fn bind(&self, address: SocketAddr) -> io::Result<WatchedListener<'a>> {
        let inner = self.host.bind(address)?;
        self.seen.address.set(Some(inner.local_addr()?));
        Ok(WatchedListener {
            inner,
            codes: self.codes,
            seen: self.seen,
        })
    }

    fn connect(&self, address: SocketAddr) -> io::Result<TcpStream> {
        self.host.connect(address)
    }
}

impl<'a> OpenListener for WatchedListener<'a> {
    type Stream = TcpStream;

    fn accept(&self) -> io::Result<(TcpStream, SocketAddr)> {
        let number = self.seen.accepts.get();
        self.seen.accepts.set(number.saturating_add(1));
        if let Some(code) = self.codes.get(number) {
            return Err(io::Error::from_raw_os_error(*code));
        }
        let (stream, peer) = self.inner.accept()?;
        self.seen.stream.set(Some(stream.try_clone()?));
        Ok((stream, peer))
    }
}

impl<'a> AsRawFd for WatchedListener<'a> {
    fn as_raw_fd(&self) -> RawFd {
        self.inner.as_raw_fd()
    }
}

impl<'a, R> Clock for Watched<'a, R> {
    fn monotonic(&self) -> io::Result<Duration> {
        Ok(Duration::ZERO)
    }

    fn since_1970(&self) -> io::Result<Duration> {
        Ok(Duration::ZERO)
    }

    fn sleep(&self, _duration: Duration) {
        let pauses = self.seen.pauses.get();
        self.seen.pauses.set(pauses.saturating_add(1));
    }
}

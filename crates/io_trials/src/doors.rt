// Doors and links over TCP, against themselves on loopback.
use crate::holding::holds;
use crate::network::{Seen, Watched};
use pq_io::{Doors, Failed, Link, TcpDoors, TcpLink, write_link};
use std::io::{Read, Write};
use std::net::{Net, SocketAddr, TcpListener, TcpStream};
use std::process::Abort;
use std::test::Fail;
use std::time::Duration;

/// An address of this machine with a port that is free.
const FREE: &str = "127.0.0.1:0";

/// Opens the doors at a free port, and says where they listen.
fn open<'a, R>(doors: &mut TcpDoors<'_, Watched<'a, R>>, seen: &Seen) -> Result<SocketAddr, Fail>
where
    R: Net<Stream = TcpStream, Listener = TcpListener>,
{
    doors.open_at(FREE)?;
    Ok(seen.address.get().ok_or("not open")?)
}

/// Holds a link to these bytes, which it is to give by as many reads as it takes.
fn gives<L: Link>(rt: &impl Abort, link: &mut L, wanted: &[u8]) {
    let mut piece = [0; 64];
    let mut given = 0;
    for _ in 0..wanted.len() {
        if given < wanted.len() {
            match link.read(&mut piece) {
                Ok(count) => {
                    holds(rt, 0, given, wanted[given..].starts_with(&piece[..count]));
                    given = given.saturating_add(count).min(wanted.len());
                }
                Err(Failed) => return holds(rt, 0, given, false),
            }
        }
    }
    holds(rt, 1, given, given == wanted.len());
}

#[test]
fn a_hundred_links_come_one_after_another(rt: HostRuntime) -> Result<(), Fail> {
    let seen = Seen::new(rt.alloc())?;
    let network = Watched::new(&rt, &[], &seen);
    let mut doors = TcpDoors::new(&network, 100);
    let address = open(&mut doors, &seen)?;
    for number in 0..100u8 {
        let mut peer = TcpLink::new(TcpStream::connect(&rt, address)?);
        let mut link = doors.next()?.ok_or("closed")?;
        let stream = seen.stream.replace(None).ok_or("no stream")?;
        holds(&rt, 2, usize::from(number), stream.nodelay()?);
        write_link(&mut peer, &[number, b'\n'])?;
        gives(&rt, &mut link, &[number, b'\n']);
        write_link(&mut link, b"[\"ok\",1]\n")?;
        gives(&rt, &mut peer, b"[\"ok\",1]\n");
    }
    holds(&rt, 3, 0, doors.next()?.is_none());
    holds(&rt, 3, 1, doors.faults() == 0);
    Ok(())
}

#[test]
fn a_peer_may_close_in_mid_line(rt: HostRuntime) -> Result<(), Fail> {
    let seen = Seen::new(rt.alloc())?;
    let network = Watched::new(&rt, &[], &seen);
    let mut doors = TcpDoors::new(&network, 0);
    let mut peer = TcpStream::connect(&rt, open(&mut doors, &seen)?)?;
    let mut link = doors.next()?.ok_or("closed")?;
    peer.write_all(b"[\"get\",\"k")?;
    drop(peer);
    gives(&rt, &mut link, b"[\"get\",\"k");
    holds(&rt, 2, 0, link.read(&mut [0; 8]) == Ok(0));
    Ok(())
}

#[test]
fn a_link_that_the_peer_broke_off_has_faults(rt: HostRuntime) -> Result<(), Fail> {
    let seen = Seen::new(rt.alloc())?;
    let network = Watched::new(&rt, &[], &seen);
    let mut doors = TcpDoors::new(&network, 0);
    let peer = TcpStream::connect(&rt, open(&mut doors, &seen)?)?;
    let mut link = doors.next()?.ok_or("closed")?;
    write_link(&mut link, b"[\"bye\"]\n")?;

    // A stream that is closed before its bytes are read is broken off.
    drop(peer);
    holds(&rt, 0, 0, link.read(&mut [0; 8]) == Err(Failed));
    holds(&rt, 0, 1, link.write(b"x") == Err(Failed));
    holds(&rt, 0, 2, link.failed_reads() == 1);
    holds(&rt, 0, 3, link.failed_writes() == 1);
    Ok(())
}

/// Writes a thousand large pieces to a link, until a write fails, and says how many bytes it took.
fn fill<L: Link>(link: &mut L) -> usize {
    let piece = [b'x'; 65_536];
    let mut taken = 0usize;
    for _ in 0..1_000 {
        match link.write(&piece) {
            Ok(count) => taken = taken.saturating_add(count),
            Err(Failed) => return taken,
        }
    }
    taken
}

/// Reads a stream to its end, and says how many bytes it gave.
fn drain<S: Read>(stream: &mut S) -> Result<usize, Fail> {
    let mut piece = [0; 65_536];
    let mut given = 0usize;
    for _ in 0..65_536_000 {
        match stream.read(&mut piece)? {
            0 => return Ok(given),
            count => given = given.saturating_add(count),
        }
    }
    Ok(given)
}

#[test]
fn what_a_slow_peer_has_not_read_is_not_lost(rt: HostRuntime) -> Result<(), Fail> {
    let seen = Seen::new(rt.alloc())?;
    let network = Watched::new(&rt, &[], &seen);
    let mut doors = TcpDoors::new(&network, 1);
    let mut peer = TcpStream::connect(&rt, open(&mut doors, &seen)?)?;
    let mut link = doors.next()?.ok_or("closed")?;

    // The system has room for a part of this alone, so that a write waits for the peer, here no longer than a tenth of a second.
    let stream = seen.stream.replace(None).ok_or("no stream")?;
    stream.set_write_timeout(Some(Duration::from_millis(100)))?;
    drop(stream);
    let taken = fill(&mut link);
    holds(&rt, 0, 0, link.failed_writes() == 1);
    drop(link);
    holds(&rt, 0, 1, drain(&mut peer)? == taken);
    Ok(())
}

#[test]
fn doors_may_not_open(rt: HostRuntime) -> Result<(), Fail> {
    let seen = Seen::new(rt.alloc())?;
    let network = Watched::new(&rt, &[], &seen);
    let mut doors = TcpDoors::new(&network, 0);
    let address = open(&mut doors, &seen)?;
    let in_use = format!(in rt.alloc(); "{address}")?;
    let mut doors = TcpDoors::new(&rt, 0);
    for (number, address) in [in_use.as_str(), "127.0.0.1", ""].into_iter().enumerate() {
        holds(&rt, number, 0, doors.faults() == number as u64);
        holds(&rt, number, 1, doors.open_at(address) == Err(Failed));
    }

    // Doors that are not open give no link.
    holds(&rt, 3, 0, doors.next().is_err());
    holds(&rt, 3, 1, doors.faults() == 4);
    Ok(())
}

// Linux's codes, by errno(3).
const EPERM: i32 = 1;

const EINTR: i32 = 4;

const EBADF: i32 = 9;

const EAGAIN: i32 = 11;

const ENOMEM: i32 = 12;

const EFAULT: i32 = 14;

const EINVAL: i32 = 22;

const ENFILE: i32 = 23;

const EMFILE: i32 = 24;

const ENOSR: i32 = 63;

const ENONET: i32 = 64;

const EPROTO: i32 = 71;

const ENOTSOCK: i32 = 88;

const ENOPROTOOPT: i32 = 92;

const EPROTONOSUPPORT: i32 = 93;

const ESOCKTNOSUPPORT: i32 = 94;

const EOPNOTSUPP: i32 = 95;

const ENETDOWN: i32 = 100;

const ENETUNREACH: i32 = 101;

const ECONNABORTED: i32 = 103;

const ENOBUFS: i32 = 105;

const ETIMEDOUT: i32 = 110;

const EHOSTDOWN: i32 = 112;

const EHOSTUNREACH: i32 = 113;

/// The codes by which the first accepts fail, after how many of these there is a pause, and whether a link comes in the end: by
/// what accept(2) says that each code tells.
const FAILING: [(&[i32], usize, bool); 27] = [
    (&[], 0, true),
    // One connection failed.
    (&[EINTR], 0, true),
    (&[ENOSR], 0, true),
    (&[ENONET], 0, true),
    (&[EPROTO], 0, true),
    (&[ENOPROTOOPT], 0, true),
    (&[EPROTONOSUPPORT], 0, true),
    (&[ESOCKTNOSUPPORT], 0, true),
    (&[EOPNOTSUPP], 0, true),
    (&[ENETDOWN], 0, true),
    (&[ENETUNREACH], 0, true),
    (&[ECONNABORTED], 0, true),
    (&[ETIMEDOUT], 0, true),
    (&[EHOSTDOWN], 0, true),
    (&[EHOSTUNREACH], 0, true),
    // A firewall forbids, or there is no room.
    (&[EPERM], 1, true),
    (&[ENOMEM], 1, true),
    (&[ENFILE], 1, true),
    (&[EMFILE], 1, true),
    (&[ENOBUFS], 1, true),
    (&[EMFILE, EMFILE, ECONNABORTED, EMFILE, ENFILE], 4, true),
    // No connection is to be had, also after one that failed and a pause.
    (&[EBADF], 0, false),
    (&[EAGAIN], 0, false),
    (&[EFAULT], 0, false),
    (&[EINVAL], 0, false),
    (&[ENOTSOCK], 0, false),
    (&[ECONNABORTED, EMFILE, EINVAL], 1, false),
];

#[test]
fn a_failing_accept_is_tried_again_or_is_a_fault(rt: HostRuntime) -> Result<(), Fail> {
    for (row, (codes, pauses, is_given)) in FAILING.iter().enumerate() {
        let seen = Seen::new(rt.alloc())?;
        let network = Watched::new(&rt, codes, &seen);
        let mut doors = TcpDoors::new(&network, 0);
        let _peer = TcpStream::connect(&rt, open(&mut doors, &seen)?)?;
        let given = doors.next();
        holds(&rt, row, 0, matches!(&given, Ok(Some(_))) == *is_given);
        holds(&rt, row, 1, seen.pauses.get() == *pauses);
        holds(&rt, row, 2, doors.faults() == u64::from(!*is_given));
    }
    Ok(())
}

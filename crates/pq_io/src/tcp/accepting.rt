// What to do where the system accepts no connection.
use std::io;

/// What may come of an accept that gave no connection.
#[derive(Clone, Copy, Debug, PartialEq, Eq)]
pub enum Accepting {
    /// One connection failed before it was accepted. The next one may be accepted at once.
    Again,
    /// There are no descriptors or no buffers now, which a connection that ends gives back; or a firewall forbids.
    AfterAMoment,
    /// The listener gives no connection any more.
    Failed,
}

// Linux's numbers of these errors, on x86-64 and aarch64. Most of them have no `ErrorKind`.
const EPERM: i32 = 1;

const EINTR: i32 = 4;

const ENOMEM: i32 = 12;

const ENFILE: i32 = 23;

const EMFILE: i32 = 24;

const ENOSR: i32 = 63;

const ENONET: i32 = 64;

const EPROTO: i32 = 71;

const ENOPROTOOPT: i32 = 92;

const EPROTONOSUPPORT: i32 = 93;

const ESOCKTNOSUPPORT: i32 = 94;

const EOPNOTSUPP: i32 = 95;

const ENETDOWN: i32 = 100;

const ENETUNREACH: i32 = 101;

const ECONNABORTED: i32 = 103;

const ENOBUFS: i32 = 105;

const ETIMEDOUT: i32 = 110;

const EHOSTDOWN: i32 = 112;

const EHOSTUNREACH: i32 = 113;

/// Tells what may come of an accept that failed with this error. Linux hands on by an accept an error of the network that the
/// connection had before it was accepted, and takes that connection away; accept(2) names four more errors that some kernels give
/// so. A firewall that forbids a connection may be told otherwise later.
pub fn after_error(error: &io::Error) -> Accepting {
    match error.raw_os_error() {
        Some(
            EINTR
            | ENOSR
            | ENONET
            | EPROTO
            | ENOPROTOOPT
            | EPROTONOSUPPORT
            | ESOCKTNOSUPPORT
            | EOPNOTSUPP
            | ENETDOWN
            | ENETUNREACH
            | ECONNABORTED
            | ETIMEDOUT
            | EHOSTDOWN
            | EHOSTUNREACH,
        ) => Accepting::Again,
        Some(EPERM | ENOMEM | ENFILE | EMFILE | ENOBUFS) => Accepting::AfterAMoment,
        _ => Accepting::Failed,
    }
}

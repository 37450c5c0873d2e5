// Where bytes come from and go to: sources, sinks, links that are both, doors that give links, and shelves of whole files, as
// traits whose contracts name the bytes. Each has an implementation in memory, and one over std's readers, writers, files or
// sockets. Beside them stands the gate that is passed before a range is evaluated.
//
// Code above it is generic over the traits. It may rely on the bytes given and taken, where an object tells them: those in
// memory do, and the others tell none. It may also rely on this: a call answers `Failed` only where the object's count of faults
// rose in that call, or stands at the last value of its type. A function that is lent a source, a sink or a link says that its
// `borrows` stay, so that a caller which lent it a `Both` knows what became of the two.
//
// Dangerous here: a read, a write and `next` of `Doors` wait as long as the system does, without a limit, and no type says so.
#![tactic(auto)]

mod call_log;
mod doors;
mod fault_count;
mod file_shelf;
mod finished;
mod gate;
mod link;
mod mem_doors;
mod mem_link;
mod mem_shelf;
mod mem_sink;
mod mem_source;
mod shelf;
mod standard;
mod stream;
mod tcp;

pub use doors::Doors;
pub use file_shelf::FileShelf;
pub use finished::Finished;
pub use gate::{Gate, OpenGate};
pub use link::{Both, Link, write_link, write_whole};
pub use mem_doors::MemDoors;
pub use mem_link::MemLink;
pub use mem_shelf::MemShelf;
pub use mem_sink::MemSink;
pub use mem_source::MemSource;
pub use shelf::{Shelf, TakeFault};
pub use standard::{Reading, Writing};
pub use stream::{Failed, Sink, Source};
pub use tcp::{TcpDoors, TcpLink};

/// The most bytes that a shelf gives of a file.
pub const MAX_FILE_BYTES: usize = 1_048_576;

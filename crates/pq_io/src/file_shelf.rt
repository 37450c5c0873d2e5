// A shelf over the files of the system.
ghost use Rattle.std.specs.Prelude.{◌≡◌, ◌≤◌, None, IfOk, IfSome, vec_len};

use crate::fault_count::FaultCount;
use crate::{MAX_FILE_BYTES, Shelf, TakeFault};
use out_of_memory::OutOfMemory;
use std::alloc::Global;
use std::fs;
use std::io::{Error, Read};
use std::marker::Model;
use std::rt::Files;

// How many bytes one read asks for.
const PIECE_BYTES: usize = 4096;

/// A shelf whose names are paths of files. What the files hold is not told. Contracts see it as its count
/// of faults.
#[derive(Drop)]
pub struct FileShelf<'a, R> {
    rt: &'a R,
    faults: FaultCount,
}

impl<'a, R> Model for FileShelf<'a, R> {
    ghost use Rattle.std.specs.Prelude.{ℕ};

    ghost Value = { ℕ };

    ghost view = { λ s. s.faults.0 };
}

impl<'a, R> FileShelf<'a, R> {
    /// The files that the runtime reaches, as a shelf that has no fault yet.
    pub fn new(rt: &'a R) -> FileShelf<'a, R>
        ensures { result ≡ 0 }
    {
        FileShelf {
            rt,
            faults: FaultCount::new(),
        }
    }

    /// How many calls have failed, up to the last value of the type.
    pub fn faults(&self) -> u64
        ensures { result ≡ self.now }
    {
        self.faults.count()
    }
}

impl<'a, R: Files> Shelf for FileShelf<'a, R> {
    ghost held = { λ _. None };

    ghost faults = { λ faults. faults };

    /// Opens the file and reads at most one byte more than it may have. An error of the system is a
    /// fault, unless it is that there was no memory.
    fn take(&mut self, alloc: Global, name: &str) -> Result<Vec<u8>, TakeFault> {
        match read_named(self.rt, alloc, name) {
            Ok(bytes) => Ok(bytes),
            Err(TakeFault::OutOfMemory(memory)) => Err(TakeFault::OutOfMemory(memory)),
            Err(TakeFault::Failed) => Err(self.faults.raise().into()),
        }
    }
}

// The answer to an error of the system.
fn fault_of(error: &Error) -> TakeFault {
    match OutOfMemory::of_system(error) {
        Some(memory) => TakeFault::OutOfMemory(memory),
        None => TakeFault::Failed,
    }
}

// The bytes of the file at this path.
fn read_named<R: Files>(rt: &R, alloc: Global, path: &str) -> Result<Vec<u8>, TakeFault>
    ensures { IfOk result (λ bytes. vec_len bytes ≤ MAX_FILE_BYTES) }
{
    match fs::open(rt, path) {
        Ok(file) => read_all(alloc, file),
        Err(error) => Err(fault_of(&error)),
    }
}

// All the bytes of a reader, where it has no more than a shelf gives. It reads at most one byte past those.
fn read_all<F: Read + Drop>(alloc: Global, mut file: F) -> Result<Vec<u8>, TakeFault>
    ensures bytes { IfOk result (λ bytes. IfSome (F.remaining file) (λ left. bytes.items ≡ left)) }
    ensures bound { IfOk result (λ bytes. vec_len bytes ≤ MAX_FILE_BYTES) }
{
    let mut bytes = Vec::new(alloc);
    let mut piece = [0; PIECE_BYTES];
    'pieces: while bytes.len() <= MAX_FILE_BYTES {
        let room = PIECE_BYTES.min(MAX_FILE_BYTES + 1 - bytes.len());
        match file.read(&mut piece[..room]) {
            Ok(0) => return Ok(bytes),
            Ok(count) => bytes.extend_from_slice(&piece[..count])?,
            Err(error) => return Err(fault_of(&error)),
        }
    }
    Err(TakeFault::Failed)
}

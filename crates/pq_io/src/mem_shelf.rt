// A shelf in memory, for tests: which of its calls fail is chosen beforehand.
ghost use Rattle.std.specs.Prelude.{◌≡◌, ◌≤◌, ◌↔◌, ◌⊎◌, Some, Err, map, IfOk, vec_len};
ghost use Rattle.std.specs.Option.{option_map, option_copied};
ghost use Rattle.pq_io.specs.CallLog.{NextIsListed, after_call, no_calls};
ghost use Rattle.pq_io.specs.Faults.{Rose};
ghost use Rattle.pq_io.specs.Shelf.{CannotGive, bytes_under, file_of, has_failed};

use crate::call_log::Calls;
use crate::{MAX_FILE_BYTES, Shelf, TakeFault};
use std::alloc::Global;
use std::marker::Model;

/// A shelf that holds the files that it was made with. Contracts see it as a `ShelfState`.
#[derive(Drop)]
pub struct MemShelf {
    files: Vec<(String, Vec<u8>)>,
    calls: Calls,
}

impl Model for MemShelf {
    ghost use Rattle.std.specs.Prelude.{map};
    ghost use Rattle.pq_io.specs.Shelf.{ShelfState, file_of};

    ghost Value = { ShelfState };

    ghost view = { λ s. record { files = map file_of s.files.items; log = s.calls } };
}

// The bytes of the first file of that name. Takes a step for each file up to it.
fn find_file<'a>(files: &'a [(String, Vec<u8>)], name: &str) -> Option<&'a Vec<u8>>
    ensures { option_map (λ bytes. bytes.items) (option_copied result) ≡
        bytes_under (map file_of files.now) name.now }
{
    for file in files {
        if file.0.as_str() == name {
            return Some(&file.1);
        }
    }
    None
}

impl MemShelf {
    /// A shelf of these files, each a name and its bytes. A call fails exactly where its number, counted
    /// from 1, is in `fails`, where no file has the name, and where the first that has it holds more than
    /// `MAX_FILE_BYTES` bytes.
    pub fn new(files: Vec<(String, Vec<u8>)>, fails: Vec<usize>) -> MemShelf
        ensures { result ≡ record { files = map file_of files.items; log = no_calls fails.items } }
    {
        MemShelf {
            files,
            calls: Calls::new(fails),
        }
    }
}

impl Shelf for MemShelf {
    ghost held = { λ s. Some s.files };

    ghost faults = { λ s. s.log.faults };

    /// Takes a step for each file up to the one taken, for each byte of it and for each number in `fails`.
    fn take(&mut self, alloc: Global, name: &str) -> Result<Vec<u8>, TakeFault>
        ensures bytes { IfOk result (λ bytes. bytes_under self.old.files name.now ≡ Some bytes.items) }
        ensures bound { IfOk result (λ bytes. vec_len bytes ≤ MAX_FILE_BYTES) }
        ensures same_held { self.new.files ≡ self.old.files }
        ensures later { self.old.log.faults ≤ self.new.log.faults }
        ensures cause { result ≡ Err TakeFault.Failed → Rose self.old.log.faults self.new.log.faults }
        ensures fails { (result ≡ Err TakeFault.Failed) ↔
            (NextIsListed self.old.log ⊎ CannotGive self.old.files name.now) }
        ensures logged { self.new.log ≡ after_call self.old.log (has_failed result) }
    {
        self.calls.next()?;
        match find_file(&self.files, name) {
            Some(bytes) if bytes.len() <= MAX_FILE_BYTES => Ok(bytes.to_vec(alloc)?),
            _ => Err(self.calls.fault().into()),
        }
    }
}

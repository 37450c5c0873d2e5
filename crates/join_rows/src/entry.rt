// Where the texts of one row lie.
ghost use Rattle.std.specs.Prelude.{◌≡◌, ◌≤◌, ◌<◌, ◌^◌, ◌++◌, IfOk, length};
ghost use Rattle.join_rows.specs.Laid.{row_of, IsWithin, Grows};

use crate::refusing::refusal;
use out_of_memory::OutOfMemory;

/// Where a row lies in the bytes of a leaf: its key from a place on, and its value behind it.
#[derive(Clone, Copy, Debug, PartialEq, Eq)]
pub struct Entry {
    pub start: u32,
    pub value_len: u32,
    pub key_len: u16,
}

impl Entry {
    /// The key. It takes constant time.
    pub fn key<'a>(&self, bytes: &'a [u8]) -> &'a [u8]
        requires { IsWithin bytes.now self.now }
        ensures { result.now ≡ (row_of bytes.now self.now).0 }
    {
        let start = self.start as usize;
        &bytes[start..start + self.key_len as usize]
    }

    /// The value. It takes constant time.
    pub fn value<'a>(&self, bytes: &'a [u8]) -> &'a [u8]
        requires { IsWithin bytes.now self.now }
        ensures { result.now ≡ (row_of bytes.now self.now).1 }
    {
        let start = self.start as usize + self.key_len as usize;
        &bytes[start..start + self.value_len as usize]
    }

    /// The bytes that the row takes.
    pub fn size(&self) -> usize {
        self.key_len as usize + self.value_len as usize
    }
}

/// Writes the texts of a row behind the bytes. Linear in the texts.
///
/// On `OutOfMemory` a part of them may have been written. It comes also where the bytes are 4 GiB or more.
pub fn lay(bytes: &mut Vec<u8>, key: &[u8], value: &[u8]) -> Result<Entry, OutOfMemory>
    requires short_key { length key.now < 2 ^ 16 }
    requires short_value { length value.now < 2 ^ 32 }
    ensures row { IfOk result (λ entry. row_of bytes.new.items entry ≡ (key.now, value.now)) }
    ensures within { IfOk result (λ entry. IsWithin bytes.new.items entry) }
    ensures grows { Grows bytes.old.items bytes.new.items }
{
    let Ok(start) = u32::try_from(bytes.len()) else {
        return Err(refusal(*bytes.allocator()));
    };
    let entry = Entry {
        start,
        value_len: value.len() as u32,
        key_len: key.len() as u16,
    };
    bytes.extend_from_slice(key)?;
    bytes.extend_from_slice(value)?;
    Ok(entry)
}

// Rows that are written: one among others, or all of them anew.
ghost use Rattle.std.specs.Prelude.{◌≡◌, IfOk, OnOk, OnErr};
ghost use Rattle.semantics.specs.Texts.{with_pair};
ghost use Rattle.join_rows.specs.Laid.{row_of, rows_of, IsWithin, Grows, IsRow, AreLaid, LaidAs};
ghost use Rattle.join_rows.specs.Found.{Finds};

use crate::entry::{Entry, lay};
use out_of_memory::OutOfMemory;
use std::alloc::Global;

/// Rows that lie in bytes.
#[derive(Debug, Drop)]
pub struct Laid {
    pub bytes: Vec<u8>,
    pub entries: Vec<Entry>,
}

/// The bytes that the rows of these entries take. Linear in the entries.
pub fn size_of(entries: &[Entry]) -> usize {
    let mut size = 0usize;
    for entry in entries {
        size = size.saturating_add(entry.size());
    }
    size
}

/// Writes the texts of an entry behind other bytes. Linear in them.
///
/// On `OutOfMemory` a part of them may have been written.
fn lay_again(texts: &mut Vec<u8>, bytes: &[u8], entry: &Entry) -> Result<Entry, OutOfMemory>
    requires { IsWithin bytes.now entry.now }
    ensures row { IfOk result (λ again. row_of texts.new.items again ≡ row_of bytes.now entry.now) }
    ensures within { IfOk result (λ again. IsWithin texts.new.items again) }
    ensures grows { Grows texts.old.items texts.new.items }
{
    let entry = *entry;
    lay(texts, entry.key(bytes), entry.value(bytes))
}

/// The rows of these entries in new memory, without room for more. Linear in their texts.
pub fn copy_of(alloc: Global, bytes: &[u8], entries: &[Entry]) -> Result<Laid, OutOfMemory>
    requires { AreLaid bytes.now entries.now }
    ensures { IfOk result (λ copy. LaidAs (rows_of bytes.now entries.now) copy.bytes.items copy.entries.items) }
{
    let mut texts = Vec::with_capacity(alloc, size_of(entries))?;
    let mut places = Vec::with_capacity(alloc, entries.len())?;
    for entry in entries {
        let again = lay_again(&mut texts, bytes, entry)?;
        places.push(again)?;
    }
    Ok(Laid {
        bytes: texts,
        entries: places,
    })
}

/// Writes a row at the place that a search for its key found: over the row of the key, or where it would stand. Linear in its
/// texts and the entries behind it.
///
/// On `OutOfMemory` the rows are those that were.
pub fn put_at(
    bytes: &mut Vec<u8>,
    entries: &mut Vec<Entry>,
    found: Result<usize, usize>,
    key: &str,
    value: &str,
) -> Result<(), OutOfMemory>
    requires laid { AreLaid bytes.old.items entries.old.items }
    requires found { Finds key.now (rows_of bytes.old.items entries.old.items) found }
    requires row { IsRow (key.now, value.now) }
    ensures ok { OnOk result (LaidAs (with_pair key.now value.now (rows_of bytes.old.items entries.old.items)) bytes.new.items entries.new.items) }
    ensures err { OnErr result (LaidAs (rows_of bytes.old.items entries.old.items) bytes.new.items entries.new.items) }
{
    let entry = lay(bytes, key.as_bytes(), value.as_bytes())?;
    match found {
        Ok(place) => {
            entries[place] = entry;
            Ok(())
        }
        Err(place) => {
            entries.insert(place, entry)?;
            Ok(())
        }
    }
}

// Marking the ids that written keys concern.
ghost use Rattle.std.specs.Prelude.{◌≡◌, OnOk, OnErr};
ghost use Rattle.growing_history.specs.Changes.{written};
ghost use Rattle.base_shards.specs.Marks.{OnlyMarks, keys_of, marked_by_keys};

use base_versions::Placed;
use join_types::{Entry, Write};
use out_of_memory::OutOfMemory;
use updater_index::UpdaterIndex;

/// Marks every id with a range that contains the key which the entry puts or removes.
///
/// On `OutOfMemory` some of them may be marked.
fn mark_entry(index: &mut UpdaterIndex, entry: &Entry) -> Result<(), OutOfMemory>
    ensures ok { OnOk result (index.new ≡ marked_by_keys (written entry.now.write) index.old) }
    ensures err { OnErr result (OnlyMarks index.old index.new) }
{
    match &entry.write {
        Write::Put(key, _) => index.mark_stabbed(key),
        Write::Remove(key) => index.mark_stabbed(key),
        Write::Declare(_) => Ok(()),
        Write::Drop(_) => Ok(()),
    }
}

/// Marks every id with a range that contains a key which the entries put or remove. It costs what
/// `UpdaterIndex::mark_stabbed` does for each such key.
///
/// On `OutOfMemory` some of them may be marked.
pub(crate) fn mark_written(index: &mut UpdaterIndex, own: &[Placed]) -> Result<(), OutOfMemory>
    ensures ok { OnOk result (index.new ≡ marked_by_keys (keys_of own.now) index.old) }
    ensures err { OnErr result (OnlyMarks index.old index.new) }
{
    for placed in own {
        mark_entry(index, &placed.entry)?;
    }
    Ok(())
}

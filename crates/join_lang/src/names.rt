// The names of a join's slots, in order of first occurrence.
ghost use Rattle.std.specs.Prelude.{◌≡◌, ◌<◌, [], length, map, string_bytes, false, true, IfOk, MatchOption};
ghost use Rattle.std.specs.List.{list_any, position_or_len};
ghost use Rattle.semantics.specs.Texts.{same};
ghost use Rattle.protocol.specs.JoinText.{place_among};
ghost use Rattle.join_lang.specs.Readings.{Finds};

use out_of_memory::OutOfMemory;
use std::alloc::Global;
use std::marker::Model;

/// The most names of one join.
pub const MAX_NAMES: usize = 16;

/// The names so far, at most 16.
#[derive(Drop)]
pub struct Names {
    alloc: Global,
    list: Vec<String>,
}

impl Model for Names {
    ghost use Rattle.std.specs.Prelude.{List, ◌≤◌, length, map, string_bytes};
    ghost use Rattle.semantics.specs.Texts.{Text};

    ghost Value = { List Text };

    ghost view = { λ n. map string_bytes n.list.items };

    ghost invariant = { λ n. length n.list.items ≤ 16 };
}

impl Names {
    /// No names.
    pub fn new(alloc: Global) -> Names
        ensures { result ≡ [] }
    {
        Names {
            alloc,
            list: Vec::new(alloc),
        }
    }

    /// The place of a name, which is added where it is new; none exactly where it would be the seventeenth. Linear in
    /// the names.
    ///
    /// It may report that it found no memory for a new name.
    pub fn place_of(&mut self, name: &str) -> Result<Option<u8>, OutOfMemory>
        ensures { IfOk result (λ place. Finds (place_among self.old name.now) place self.new) }
    {
        if let Some(place) = position_of(self.list.as_slice(), name) {
            return Ok(Some(place as u8));
        }
        let place = self.list.len();
        if place >= MAX_NAMES {
            return Ok(None);
        }
        self.list.push(String::from_str(self.alloc, name)?)?;
        Ok(Some(place as u8))
    }

    /// The names in order.
    pub fn into_list(self) -> Vec<String>
        ensures { map string_bytes result.items ≡ self }
    {
        self.list
    }
}

/// The first place at which the name stands.
fn position_of(names: &[String], name: &str) -> Option<usize>
    ensures { MatchOption result (list_any (same name.now) (map string_bytes names.now) ≡ false)
        (λ place. (list_any (same name.now) (map string_bytes names.now) ≡ true) × (place ≡ position_or_len (same name.now) (map string_bytes names.now)) × (place < length names.now)) }
{
    for (place, other) in names.iter().enumerate() {
        if name == other.as_str() {
            return Some(place);
        }
    }
    None
}

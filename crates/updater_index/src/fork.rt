// Where the two bounds of a range part.
ghost use Rattle.std.specs.Prelude.{◌≡◌, ◌≤◌, ◌∷◌, ◌++◌, [], IfOk, Some, length, take, refl};
ghost use Rattle.std.specs.Cmp.{partial_equiv_from_equiv};
ghost use Rattle.std.specs.Cmp.Lexicographic.{nat_list_eq_equiv, nat_list_cmp_total, texts_ties, texts_po};
ghost use Rattle.semantics.specs.Texts.{text_cmp, same};
ghost use Rattle.updater_index.specs.Shared.{shared_len, next_at};

use out_of_memory::OutOfMemory;
use std::alloc::Global;
use std::cmp::Ordering;
use std::marker::Model;

/// The first bytes of a text, which need not end with a whole character. They are in byte order.
#[derive(Debug, Drop)]
pub struct Beginning {
    bytes: Vec<u8>,
}

impl Model for Beginning {
    ghost use Rattle.std.specs.Prelude.{List, ℕ};

    ghost Value = { List ℕ };

    ghost view = { λ b. b.bytes.items };
}

impl Beginning {
    /// The bytes, which are copied. Linear in them.
    pub fn of(alloc: Global, bytes: &[u8]) -> Result<Beginning, OutOfMemory>
        ensures { IfOk result (λ beginning. beginning ≡ bytes.now) }
    {
        let bytes = Vec::from_slice(alloc, bytes)?;
        Ok(Beginning { bytes })
    }

    /// The bytes with byte 0 behind them, which is the next in order.
    pub fn after(alloc: Global, bytes: &[u8]) -> Result<Beginning, OutOfMemory>
        ensures { IfOk result (λ beginning. beginning ≡ bytes.now ++ 0 ∷ []) }
    {
        let mut bytes = Vec::from_slice(alloc, bytes)?;
        bytes.push(0)?;
        Ok(Beginning { bytes })
    }

    /// The bytes.
    pub fn bytes(&self) -> &[u8]
        ensures { result.now ≡ self.now }
    {
        self.bytes.as_slice()
    }

    /// The number of bytes.
    pub fn len(&self) -> usize
        ensures { result ≡ length self.now }
    {
        self.bytes.len()
    }

    /// Equal bytes, which are copied.
    pub fn copy(&self, alloc: Global) -> Result<Beginning, OutOfMemory>
        ensures { IfOk result (λ copy. copy ≡ self.now) }
    {
        Beginning::of(alloc, self.bytes())
    }
}

impl PartialEq for Beginning {
    ghost eq = { λ x y. same x y };

    ghost laws = { partial_equiv_from_equiv nat_list_eq_equiv };

    fn eq(&self, other: &Self) -> bool {
        self.bytes() == other.bytes()
    }
}

impl Eq for Beginning {
    ghost laws = { nat_list_eq_equiv };
}

impl PartialOrd for Beginning {
    ghost partial_cmp = { λ x y. Some (text_cmp x y) };

    ghost laws = { texts_po };

    fn partial_cmp(&self, other: &Self) -> Option<Ordering> {
        Some(self.cmp(other))
    }
}

impl Ord for Beginning {
    ghost cmp = { λ x y. text_cmp x y };

    ghost total = { nat_list_cmp_total };

    ghost matches_partial_cmp = { λ x y. refl };

    ghost matches_eq = { λ x y. texts_ties x y };

    fn cmp(&self, other: &Self) -> Ordering {
        self.bytes().cmp(other.bytes())
    }
}

/// The bytes with which both bounds of a range begin, and the byte that follows them in the last bound, plus one; 0 where
/// none follows.
#[derive(Debug, Drop, PartialEq, Eq, PartialOrd, Ord)]
pub struct Fork {
    pub beginning: Beginning,
    pub next: u16,
}

impl Fork {
    /// An equal fork, whose bytes are copied.
    pub fn copy(&self, alloc: Global) -> Result<Fork, OutOfMemory>
        ensures { IfOk result (λ copy. copy ≡ self.now) }
    {
        let beginning = self.beginning.copy(alloc)?;
        Ok(Fork {
            beginning,
            next: self.next,
        })
    }
}

/// With how many equal bytes the two begin.
pub fn shared_len(first: &[u8], second: &[u8]) -> usize
    ensures number { result ≡ shared_len first.now second.now }
    ensures within { result ≤ length second.now }
{
    let mut count = 0;
    while count < first.len() && count < second.len() && first[count] == second[count] {
        count += 1;
    }
    count
}

/// The byte at a place, plus one; 0 past the end.
pub fn next_at(bytes: &[u8], place: usize) -> u16
    ensures { result ≡ next_at place bytes.now }
{
    match bytes.get(place) {
        None => 0,
        Some(byte) => u16::from(*byte) + 1,
    }
}

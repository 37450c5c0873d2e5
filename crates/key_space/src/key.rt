// Keys.
ghost use Rattle.std.specs.Prelude.{◌≡◌, ◌≤◌, ◌↔◌, IfOk, length, true, false, Some, nat_eq, refl};
ghost use Rattle.std.specs.Cmp.{partial_equiv_from_equiv};
ghost use Rattle.std.specs.Cmp.Lexicographic.{nat_list_eq_equiv, nat_list_cmp_total, texts_ties, texts_po};
ghost use Rattle.semantics.specs.Texts.{is_key, table_of, text_cmp, same};

use crate::key_bound::KeyBound;
use crate::shared_text::SharedText;
use crate::table::{find_table, names_table};
use out_of_memory::OutOfMemory;
use std::alloc::Global;
use std::cmp::Ordering;
use std::marker::Model;

/// The most bytes of a key.
pub const MAX_KEY_BYTES: usize = 512;

/// A key: UTF-8 text of at most 512 bytes, which begins with a table's name of 1 to 64 bytes and `|`. Keys are in byte
/// order. A copy shares a long text.
#[derive(Debug, Drop)]
pub struct Key {
    place: KeyBound,
}

impl Model for Key {
    ghost use Rattle.std.specs.Prelude.{◌≡◌, List, ℕ, true};
    ghost use Rattle.semantics.specs.Texts.{is_key};

    ghost Value = { List ℕ };

    ghost view = { λ k. k.place };

    ghost invariant = { λ k. is_key k.place ≡ true };
}

/// Why a text is refused as a key.
#[derive(Debug, Drop, PartialEq, Eq)]
pub enum KeyFault {
    /// The text is no key.
    BadKey,
    /// No memory was found for it.
    OutOfMemory(OutOfMemory),
}

impl Key {
    /// The text as a key, which is copied once. Linear in its length.
    ///
    /// `BadKey` comes exactly where the text has more than 512 bytes or does not begin with a table's name of 1 to 64
    /// bytes and `|`.
    pub fn read(alloc: Global, text: &str) -> Result<Key, KeyFault>
        ensures ok { IfOk result (λ key. (key ≡ text.now) × (is_key text.now ≡ true)) }
        ensures bad_key { (result ≡ Err KeyFault.BadKey) ↔ (is_key text.now ≡ false) }
    {
        if text.len() > MAX_KEY_BYTES || !names_table(text) {
            return Err(KeyFault::BadKey);
        }
        match SharedText::read(alloc, text) {
            Ok(text) => Ok(Key {
                place: KeyBound::of(text),
            }),
            Err(memory) => Err(KeyFault::OutOfMemory(memory)),
        }
    }

    /// The text of the key.
    pub fn text(&self) -> &str
        ensures text { result.now ≡ self.now }
        ensures is_key { is_key self.now ≡ true }
    {
        self.place.text()
    }

    /// The key as a bound.
    pub fn place(&self) -> &KeyBound
        ensures place { result.now ≡ self.now }
        ensures is_key { is_key self.now ≡ true }
    {
        &self.place
    }

    /// The key of a bound whose text is a key. The text is shared, and it takes constant time.
    pub fn at(place: &KeyBound) -> Result<Key, OutOfMemory>
        requires { is_key place.now ≡ true }
        ensures { IfOk result (λ key. key ≡ place.now) }
    {
        let place = place.copy()?;
        Ok(Key { place })
    }

    /// The name of the key's table: what stands before its first `|`. Linear in the name.
    pub fn table(&self) -> &str
        ensures table { result.now ≡ table_of self.now }
        ensures short { length result.now ≤ 64 }
    {
        match find_table(self.text()) {
            Some(table) => table,
            None => unreachable!(),
        }
    }

    /// An equal key, which shares a long text. It takes constant time.
    pub fn copy(&self) -> Result<Key, OutOfMemory>
        ensures { IfOk result (λ copy. copy ≡ self.now) }
    {
        let place = self.place.copy()?;
        Ok(Key { place })
    }
}

impl PartialEq for Key {
    ghost eq = { λ x y. same x y };

    ghost laws = { partial_equiv_from_equiv nat_list_eq_equiv };

    fn eq(&self, other: &Self) -> bool {
        self.text() == other.text()
    }
}

impl Eq for Key {
    ghost laws = { nat_list_eq_equiv };
}

impl PartialOrd for Key {
    ghost partial_cmp = { λ x y. Some (text_cmp x y) };

    ghost laws = { texts_po };

    fn partial_cmp(&self, other: &Self) -> Option<Ordering> {
        Some(self.cmp(other))
    }
}

impl Ord for Key {
    ghost cmp = { λ x y. text_cmp x y };

    ghost total = { nat_list_cmp_total };

    ghost matches_partial_cmp = { λ x y. refl };

    ghost matches_eq = { λ x y. texts_ties x y };

    fn cmp(&self, other: &Self) -> Ordering {
        self.text().cmp(other.text())
    }
}

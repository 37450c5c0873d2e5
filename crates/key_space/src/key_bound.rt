// Bounds in the order of keys.
ghost use Rattle.std.specs.Prelude.{◌≡◌, IfOk, Some, refl};
ghost use Rattle.std.specs.Cmp.{partial_equiv_from_equiv};
ghost use Rattle.std.specs.Cmp.Lexicographic.{nat_list_eq_equiv, nat_list_cmp_total, texts_ties, texts_po};
ghost use Rattle.semantics.specs.Texts.{text_cmp, same};

use crate::shared_text::SharedText;
use out_of_memory::OutOfMemory;
use std::cmp::Ordering;
use std::marker::Model;

/// A bound in the order of keys: the text of a key, or that of a bound of a range, which need not be a key. A map whose
/// keys are bounds can be read from one bound to another. A copy shares a long text.
#[derive(Debug, Drop)]
pub struct KeyBound {
    text: SharedText,
}

impl Model for KeyBound {
    ghost use Rattle.std.specs.Prelude.{List, ℕ};

    ghost Value = { List ℕ };

    ghost view = { λ p. p.text };
}

impl KeyBound {
    /// The bound of a text.
    pub(crate) fn of(text: SharedText) -> KeyBound
        ensures { result ≡ text }
    {
        KeyBound { text }
    }

    /// The text of the bound.
    pub fn text(&self) -> &str
        ensures { result.now ≡ self.now }
    {
        self.text.as_str()
    }

    /// An equal bound, which shares a long text. It takes constant time.
    pub fn copy(&self) -> Result<KeyBound, OutOfMemory>
        ensures { IfOk result (λ copy. copy ≡ self.now) }
    {
        let text = self.text.copy()?;
        Ok(KeyBound { text })
    }
}

impl PartialEq for KeyBound {
    ghost eq = { λ x y. same x y };

    ghost laws = { partial_equiv_from_equiv nat_list_eq_equiv };

    fn eq(&self, other: &Self) -> bool {
        self.text() == other.text()
    }
}

impl Eq for KeyBound {
    ghost laws = { nat_list_eq_equiv };
}

impl PartialOrd for KeyBound {
    ghost partial_cmp = { λ x y. Some (text_cmp x y) };

    ghost laws = { texts_po };

    fn partial_cmp(&self, other: &Self) -> Option<Ordering> {
        Some(self.cmp(other))
    }
}

impl Ord for KeyBound {
    ghost cmp = { λ x y. text_cmp x y };

    ghost total = { nat_list_cmp_total };

    ghost matches_partial_cmp = { λ x y. refl };

    ghost matches_eq = { λ x y. texts_ties x y };

    fn cmp(&self, other: &Self) -> Ordering {
        self.text().cmp(other.text())
    }
}

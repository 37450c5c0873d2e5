// Values.
ghost use Rattle.std.specs.Prelude.{◌≡◌, ◌↔◌, IfOk, true, false};
ghost use Rattle.semantics.specs.Texts.{is_value};

use crate::shared_text::SharedText;
use out_of_memory::OutOfMemory;
use std::alloc::Global;
use std::marker::Model;

/// The most bytes of a value.
pub const MAX_VALUE_BYTES: usize = 65_536;

/// A value: UTF-8 text of at most 65,536 bytes. A copy shares a long text.
#[derive(Debug, Drop)]
pub struct Value {
    text: SharedText,
}

impl Model for Value {
    ghost use Rattle.std.specs.Prelude.{◌≡◌, List, ℕ, true};
    ghost use Rattle.semantics.specs.Texts.{is_value};

    ghost Value = { List ℕ };

    ghost view = { λ v. v.text };

    ghost invariant = { λ v. is_value (v.text) ≡ true };
}

/// Why a text is refused as a value.
#[derive(Debug, Drop, PartialEq, Eq)]
pub enum ValueFault {
    /// The text has more than 65,536 bytes.
    BadValue,
    /// No memory was found for it.
    OutOfMemory(OutOfMemory),
}

impl Value {
    /// The text as a value, which is copied once. Linear in its length.
    ///
    /// `BadValue` comes exactly where the text has more than 65,536 bytes.
    pub fn read(alloc: Global, text: &str) -> Result<Value, ValueFault>
        ensures ok { IfOk result (λ value. (value ≡ text.now) × (is_value text.now ≡ true)) }
        ensures bad_value { (result ≡ Err ValueFault.BadValue) ↔ (is_value text.now ≡ false) }
    {
        if text.len() > MAX_VALUE_BYTES {
            return Err(ValueFault::BadValue);
        }
        match SharedText::read(alloc, text) {
            Ok(text) => Ok(Value { text }),
            Err(memory) => Err(ValueFault::OutOfMemory(memory)),
        }
    }

    /// The text of the value.
    pub fn text(&self) -> &str
        ensures text { result.now ≡ self.now }
        ensures is_value { is_value self.now ≡ true }
    {
        self.text.as_str()
    }

    /// An equal value, which shares a long text. It takes constant time.
    pub fn copy(&self) -> Result<Value, OutOfMemory>
        ensures { IfOk result (λ copy. copy ≡ self.now) }
    {
        let text = self.text.copy()?;
        Ok(Value { text })
    }
}

// Texts that are copied in constant time.
ghost use Rattle.std.specs.Prelude.{◌≡◌, IfOk, IfSome};
ghost use Rattle.std.specs.String.{string_bytes};
ghost use Rattle.key_space.specs.Shared.{IsShort, kept_bytes, short_bytes};

use out_of_memory::OutOfMemory;
use std::alloc::Global;
use std::marker::Model;
use std::str;
use std::sync::Arc;

/// The most bytes of a text that lies in its owner: with its length and the mark of its kind it takes 24 bytes.
const SHORT: usize = 22;

/// A text of at most 22 bytes, which begin the bytes.
#[derive(Clone, Copy, Debug)]
pub(crate) struct ShortText {
    len: u8,
    bytes: [u8; SHORT],
}

/// Where a text lies.
#[derive(Debug, Drop)]
pub(crate) enum Kept {
    /// A short text, which each owner has for itself.
    Here(ShortText),
    /// A longer one, which its owners share.
    Apart(Arc<String>),
}

/// A text that is copied in constant time. Most keys and values are short, and a short one lies in its owner: to compare two takes
/// no step through memory, and to copy one counts no owners.
#[derive(Debug, Drop)]
pub(crate) struct SharedText {
    kept: Kept,
}

impl Model for SharedText {
    ghost use Rattle.std.specs.Prelude.{List, ℕ};
    ghost use Rattle.key_space.specs.Shared.{IsKept, kept_bytes};

    ghost Value = { List ℕ };

    ghost view = { λ t. kept_bytes t.kept };

    ghost invariant = { λ t. IsKept t.kept };
}

impl ShortText {
    /// The text, which is copied, where it has at most 22 bytes.
    fn of(text: &str) -> Option<ShortText>
        ensures text { IfSome result (λ short. short_bytes short ≡ text.now) }
        ensures short { IfSome result (λ short. IsShort short) }
    {
        let len = text.len();
        if len > SHORT {
            return None;
        }
        let mut bytes = [0; SHORT];
        bytes[..len].copy_from_slice(text.as_bytes());
        Some(ShortText {
            len: len as u8,
            bytes,
        })
    }

    /// The text.
    fn as_str(&self) -> &str
        requires { IsShort self.now }
        ensures { result.now ≡ short_bytes self.now }
    {
        let len = usize::from(self.len);
        // They are known to be text, so that nobody has to look at them.
        unsafe { str::from_utf8_unchecked(&self.bytes[..len]) }
    }
}

impl SharedText {
    /// The text, which is copied once. Linear in its length.
    pub fn read(alloc: Global, text: &str) -> Result<SharedText, OutOfMemory>
        ensures { IfOk result (λ shared. shared ≡ text.now) }
    {
        if let Some(short) = ShortText::of(text) {
            return Ok(SharedText {
                kept: Kept::Here(short),
            });
        }
        let text = String::from_str(alloc, text)?;
        let kept = Kept::Apart(Arc::new(alloc, text)?);
        Ok(SharedText { kept })
    }

    /// The text, which is not copied where it is long.
    pub fn keep(alloc: Global, text: String) -> Result<SharedText, OutOfMemory>
        ensures { IfOk result (λ shared. shared ≡ string_bytes text) }
    {
        if let Some(short) = ShortText::of(text.as_str()) {
            return Ok(SharedText {
                kept: Kept::Here(short),
            });
        }
        let kept = Kept::Apart(Arc::new(alloc, text)?);
        Ok(SharedText { kept })
    }

    /// The text.
    pub fn as_str(&self) -> &str
        ensures { result.now ≡ self.now }
    {
        match &self.kept {
            Kept::Here(short) => short.as_str(),
            Kept::Apart(text) => text.as_str(),
        }
    }

    /// The same text. It takes constant time.
    pub fn copy(&self) -> Result<SharedText, OutOfMemory>
        ensures { IfOk result (λ copy. copy ≡ self.now) }
    {
        let kept = match &self.kept {
            Kept::Here(short) => Kept::Here(*short),
            Kept::Apart(text) => Kept::Apart(text.clone()?),
        };
        Ok(SharedText { kept })
    }
}

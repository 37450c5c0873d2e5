// Whether all items of a queue are put.
ghost use Rattle.std.specs.Prelude.{◌≡◌, IfSome};

use std::marker::Model;
use std::sync::{OnceLock, OnceToken};

/// Whether all items of a queue are put. Who finds that they are is given a token, which nobody has before `close`. Contracts see
/// which closing it is, and whose a token is.
#[derive(Drop)]
pub(crate) struct Closing {
    shut: OnceLock<()>,
}

impl Model for Closing {
    ghost use Rattle.std.specs.Prelude.{ℕ};

    ghost Value = { ℕ };

    ghost view = { λ c. c.shut.id };
}

impl Closing {
    /// Makes one of which nobody has said that all are put.
    pub fn new() -> Closing {
        Closing {
            shut: OnceLock::new(),
        }
    }

    /// Says that all items are put. It takes constant time. One thread at a time calls it.
    pub fn close(&self) {
        match self.shut.try_set(()) {
            Ok(_) => {}
            Err(()) => {}
        }
    }

    /// Finds whether all items are put. It takes constant time.
    pub fn seen(&self) -> Option<OnceToken<'_, ()>>
        ensures { IfSome result (λ token. token.of ≡ self.now) }
    {
        self.shut.witness()
    }
}

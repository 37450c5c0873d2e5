// Which history it is, as a part of types.
use std::marker::Brand;

/// Names a history, in contracts alone. Of a locked value nothing is known but its type, so each type with a pass behind a
/// lock has such a parameter, and so has each type above it.
pub trait Naming {
    ghost use Rattle.write_history.specs.Passes.{HistoryId};

    /// Which history.
    ghost history: { HistoryId };
}

/// The history that a call picks.
impl Naming for Brand {
    ghost use Rattle.std.specs.Prelude.{[]};

    ghost history = { record { table = record { words = 0; slots = 0; views_name = 0; atom = 0; block = 0; offset = 0; slot_names = [] }; kinds = record { writers = 0; pinned = 0; shards = 0 } } };
}

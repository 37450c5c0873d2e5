// Why a write is refused.
ghost use Rattle.std.specs.Prelude.{◌≡◌};

use std::marker::Model;

/// The positions of a cycle of joins: each join reads the next, and the last reads the first.
#[derive(Debug, Drop)]
pub struct Positions {
    list: Vec<u64>,
}

impl Model for Positions {
    ghost use Rattle.std.specs.Prelude.{List, ℕ};

    ghost Value = { List ℕ };

    ghost view = { λ p. p.list.items };
}

impl Positions {
    /// The positions of a list.
    pub fn of(list: Vec<u64>) -> Positions
        ensures { result ≡ list.items }
    {
        Positions { list }
    }

    /// The positions as a list, which is not copied.
    pub fn into_list(self) -> Vec<u64>
        ensures { result.items ≡ self }
    {
        let Positions { list } = self;
        list
    }

    /// The positions in order.
    pub fn as_slice(&self) -> &[u64]
        ensures { result.now ≡ self.now }
    {
        self.list.as_slice()
    }
}

/// The cause that refuses a write, with what the refusal carries.
#[derive(Debug, Drop)]
pub enum Cause {
    /// The key fits the output of the join at this position.
    Computed(u64),
    /// The history has no room.
    Full,
    /// No join stands that was declared at the position.
    NoJoin,
    /// The join breaks the rule on slots.
    Slots,
    /// The join breaks the rule on sources.
    Sources,
    /// The output overlaps that of the join at this position, the least such.
    Clash(u64),
    /// With the join the reading would have a cycle: the shortest through it, and among these the least.
    Cycle(Positions),
    /// Some rank would be above 7.
    Deep,
    /// 64 joins stand already.
    Many,
}

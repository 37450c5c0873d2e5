// The table under its rule.
use crate::known::{Kinds, Known};
use crate::log::Log;
use atomic_table::{Seat, Shared, Table, TableRule};
use std::alloc::Global;

/// The rule of a history's table.
pub(crate) struct OneHistory;

impl TableRule<Log, Known, Kinds> for OneHistory {
    ghost use Rattle.write_history.specs.Rule.{Keeps, dealer};

    ghost holds = { Keeps };

    ghost first = { dealer };
}

/// The table of a history.
pub(crate) type Board = Table<Log, Known, Kinds, OneHistory, Global>;

/// The words and the slot of the table, as threads share them.
pub(crate) type SharedBoard = Shared<Log, Known, Kinds, OneHistory>;

/// A seat at the table.
pub(crate) type Place = Seat<Log, Known>;

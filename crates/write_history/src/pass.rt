// A pass of a history.
use crate::rule::Place;
use std::marker::Model;

/// A pass of a history, with which one thread at a time reads it, and appends to it where its number is below that of the
/// writers. Contracts see its number, the number of writers, its view, which is the entries that it has seen, its mark and a floor
/// that it knows. All views of one history are beginnings of one list. It takes four bytes.
#[derive(Drop)]
pub struct Pass {
    pub(crate) place: Place,
    pub(crate) number: u32,
}

impl Model for Pass {
    ghost use Rattle.write_history.specs.Passes.{PassView};
    ghost use Rattle.write_history.specs.Steps.{IsResting};

    ghost Value = { PassView };

    ghost view = { λ p. record { history = record { table = p.place.table_id; kinds = p.place.me.0.kinds }; number = p.number; writers = p.place.me.0.kinds.writers; view = p.place.me.0.seen; mark = p.place.me.0.mark; floor = p.place.me.0.floor } };

    ghost invariant = { λ p. IsResting p.number p.place.me };
}

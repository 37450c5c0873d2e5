// One part of a range, from the cell that has it, which threads share, or with nothing kept.
ghost use Rattle.std.specs.Prelude.{◌≡◌, ◌+◌, ◌≤◌, length, IfOk, IfSome, None};
ghost use Rattle.std.specs.Bool.{OnTrue};
ghost use Rattle.semantics.specs.Joins.{Join as PlainJoin};
ghost use Rattle.growing_history.specs.Entered.{HasEntered};
ghost use Rattle.join_eval.specs.Moves.{Moves};
ghost use Rattle.cell_slots.specs.Slots.{IsOutput, StandsAs};
ghost use Rattle.rank_layers.specs.Telling.{TellsJoin};
ghost use Rattle.shared_cells.specs.Cells.{KeepsNothing};
ghost use Rattle.shared_cells.specs.Handing.{HandsOut};

use crate::room::Room;
use crate::{Cell, Part};
use base_shards::Naming;
use cell_slots::{output_part, serve_alone};
use join_eval::{Changed, KeepFault, TooMany};
use join_types::{Pair, RowSink};
use key_space::Range;
use out_of_memory::OutOfMemory;
use pq_io::Gate;
use rank_layers::Query;
use shared_reader::{Stacked, Use};
use std::sync::Wait;
use std::sync::ledger::Ledger;
use steps::Steps;

/// Reads what the join gives in the part, of which nothing is kept. The gate is passed before it is evaluated.
pub fn read_alone<N: Naming, W, G: Gate, R: Stacked<N>, L: Ledger>(
    room: &Room<'_, N, W, G>,
    query: Query,
    part: &Range,
    reader: &mut R,
    steps: &mut Steps<L>,
) -> Result<Vec<Pair>, OutOfMemory>
    requires within { query.p ≤ length (R.list reader.old) }
    requires above { R.floor reader.old ≤ query.p }
    requires entered { HasEntered (R.list reader.old) }
    requires stands { (j : PlainJoin) × StandsAs (R.list reader.old) query.p query.at query.rank j }
    requires next { R.top ≡ query.rank }
    ensures output { IfOk result (λ pairs. IsOutput (R.list reader.old) query.p query.at query.rank part.now pairs.items) }
    ensures moves { Moves R.list R.floor R.went reader.old reader.new }
    ensures counted { steps.old ≤ steps.new }
    ensures cost { IfOk result (λ pairs. steps.old + 1 + length pairs.items ≤ steps.new) }
{
    let join = reader.join_at(query.p, query.at)?;
    let range = output_part(room.alloc, &join, part)?;
    serve_alone(
        room.alloc, join, query.rank, query.p, range, room.gate, reader, steps,
    )
}

/// How many rows the cell holds after it was asked for a part. None where it gave pairs and keeps nothing: its range takes more
/// needs than may be kept.
fn rows_kept<N: Naming>(
    found: &Result<Option<Vec<Pair>>, OutOfMemory>,
    cell: &Cell<N>,
) -> Option<u64>
    ensures { result ≡ None → KeepsNothing cell.now.held }
{
    let gave = matches!(found, Ok(Some(_)));
    if gave && cell.position().is_none() {
        return None;
    }
    Some(cell.rows())
}

/// How many rows the cell holds after it was asked what changed. None where its range takes more needs than may be kept, and it
/// keeps nothing.
fn rows_told<N: Naming>(told: &Result<Changed, KeepFault<TooMany>>, cell: &Cell<N>) -> Option<u64>
    ensures { result ≡ None → KeepsNothing cell.now.held }
{
    let is_wide = matches!(told, Err(KeepFault::TooWide(_)));
    if is_wide && cell.position().is_none() {
        return None;
    }
    Some(cell.rows())
}

/// From which of the noted ranges on a cell follows them, where they were noted for it since so many were. None where it could not
/// keep what they gave: then it follows none of them.
fn followed_since(since: usize, rows: Option<u64>) -> Option<usize> {
    let _kept = rows?;
    Some(since)
}

/// What the join gives in the part, from the cell that has it. None where no cell has it any more, where the cell is for another
/// join or for another rank of it or has not the whole part, and where what it keeps stands past the position. The cell follows
/// the ranges of base pairs that were read for it, unless it could not keep what they gave, and the reader takes note that it was
/// used. While another thread has it, this one sleeps.
///
/// While this one has it, the reader below reads for it only where the cell is for the rank that is asked for, which is the
/// reader's own top rank: so only cells of lower ranks are asked for under its lock.
fn read_cell<N: Naming, W: Wait, G: Gate, R: Stacked<N>, L: Ledger>(
    room: &Room<'_, N, W, G>,
    query: Query,
    part: &Part<N>,
    reader: &mut R,
    steps: &mut Steps<L>,
) -> Result<Option<Vec<Pair>>, OutOfMemory>
    requires within { query.p ≤ length (R.list reader.old) }
    requires above { R.floor reader.old ≤ query.p }
    requires stands { (j : PlainJoin) × StandsAs (R.list reader.old) query.p query.at query.rank j }
    requires next { R.top ≡ query.rank }
    ensures output { IfOk result (λ found. IfSome found (λ pairs. IsOutput (R.list reader.old) query.p query.at query.rank part.now.range pairs.items)) }
    ensures moves { Moves R.list R.floor R.went reader.old reader.new }
    ensures counted { steps.old ≤ steps.new }
    ensures cost { IfOk result (λ found. IfSome found (λ pairs. steps.old + 1 + length pairs.items ≤ steps.new)) }
{
    let Some((id, cell)) = &part.cell else {
        return Ok(None);
    };
    let mut guard = cell.lock(room.rt);
    let Some(own) = &mut *guard else {
        return Ok(None);
    };
    let since = reader.start_noting();
    let found = own.serve(
        room.alloc,
        query,
        &part.range,
        room.most,
        room.gate,
        reader,
        steps,
    );
    let rows = rows_kept(&found, own);
    own.follow(*id, followed_since(since, rows), reader);
    reader.note_use(Use { id: *id, rows });
    found
}

/// How many rows the cell holds. None where it keeps nothing.
fn rows_held<N: Naming>(cell: &Cell<N>) -> Option<u64>
    ensures { result ≡ None → KeepsNothing cell.now.held }
{
    let _position = cell.position()?;
    Some(cell.rows())
}

/// Takes note that the cell was used, unless it handed nothing out.
fn note_handed<N: Naming, R: Stacked<N>>(
    handed: &Result<bool, OutOfMemory>,
    used: Use,
    reader: &mut R,
)
    ensures { Moves R.list R.floor R.went reader.old reader.new }
{
    let is_left = matches!(handed, Ok(false));
    if is_left {
        return;
    }
    reader.note_use(used);
}

/// Hands what the join gives in the part to the sink, from the cell that has it, and says whether it did: not where no cell has it
/// any more, where the cell is for another join or for another rank of it or has not the whole part, where what it keeps stands
/// past the position, and where it keeps nothing or would have more needs than may be kept. The cell follows the ranges of base
/// pairs that were read for it, unless it keeps nothing, and where it handed them out the reader takes note that it was used. While
/// another thread has it, this one sleeps.
///
/// While this one has it, the reader below reads for it only where the cell is for the rank that is asked for, and then only ranks
/// below that one: so only cells of lower ranks are asked for under its lock.
pub fn hand_part<N: Naming, W: Wait, G: Gate, R: Stacked<N>, K: RowSink, L: Ledger>(
    room: &Room<'_, N, W, G>,
    query: Query,
    part: &Part<N>,
    reader: &mut R,
    sink: &mut K,
    steps: &mut Steps<L>,
) -> Result<bool, OutOfMemory>
    requires within { query.p ≤ length (R.list reader.old) }
    requires above { R.floor reader.old ≤ query.p }
    requires stands { (j : PlainJoin) × StandsAs (R.list reader.old) query.p query.at query.rank j }
    requires ranked { query.rank ≤ R.top }
    ensures handed { IfOk result (λ gave. OnTrue gave (HandsOut K.got (R.list reader.old) query.p query.at query.rank part.now.range sink.old sink.new steps.old steps.new)) }
    ensures moves { Moves R.list R.floor R.went reader.old reader.new }
    ensures counted { steps.old ≤ steps.new }
{
    let Some((id, cell)) = &part.cell else {
        return Ok(false);
    };
    let mut guard = cell.lock(room.rt);
    let Some(own) = &mut *guard else {
        return Ok(false);
    };
    let since = reader.start_noting();
    let handed = own.hand(
        room.alloc,
        query,
        &part.range,
        room.most,
        room.gate,
        reader,
        sink,
        steps,
    );
    let rows = rows_held(own);
    own.follow(*id, followed_since(since, rows), reader);
    note_handed(&handed, Use { id: *id, rows }, reader);
    handed
}

/// Reads what the join gives in the part: from the cell that has it, while there is the cell and what it keeps does not stand past
/// the position, and otherwise with nothing kept.
pub fn read_part<N: Naming, W: Wait, G: Gate, R: Stacked<N>, L: Ledger>(
    room: &Room<'_, N, W, G>,
    query: Query,
    part: &Part<N>,
    reader: &mut R,
    steps: &mut Steps<L>,
) -> Result<Vec<Pair>, OutOfMemory>
    requires within { query.p ≤ length (R.list reader.old) }
    requires above { R.floor reader.old ≤ query.p }
    requires entered { HasEntered (R.list reader.old) }
    requires stands { (j : PlainJoin) × StandsAs (R.list reader.old) query.p query.at query.rank j }
    requires next { R.top ≡ query.rank }
    ensures output { IfOk result (λ pairs. IsOutput (R.list reader.old) query.p query.at query.rank part.now.range pairs.items) }
    ensures moves { Moves R.list R.floor R.went reader.old reader.new }
    ensures counted { steps.old ≤ steps.new }
    ensures cost { IfOk result (λ pairs. steps.old + 1 + length pairs.items ≤ steps.new) }
{
    if let Some(pairs) = read_cell(room, query, part, reader, steps)? {
        return Ok(pairs);
    }
    read_alone(room, query, &part.range, reader, steps)
}

/// Says what changed in the join's output in the part since a position, as the cell that has the part says. The cell follows the
/// ranges of base pairs that were read for it, unless it could not keep what they gave, and the reader takes note that it told.
/// While another thread has it, this one sleeps.
///
/// While this one has it, the reader below reads for it only where the cell is for the rank that is asked for, which is the
/// reader's own top rank: so only cells of lower ranks are asked for under its lock.
///
/// `All` comes where no cell has the part any more, where what the cell keeps does not know it once it stands at the later
/// position, and where it was filled instead and its range takes more needs than may be kept: then nothing is kept.
pub fn changes_of_part<N: Naming, W: Wait, G: Gate, R: Stacked<N>, L: Ledger>(
    room: &Room<'_, N, W, G>,
    query: Query,
    since: u64,
    part: &Part<N>,
    reader: &mut R,
    steps: &mut Steps<L>,
) -> Result<Changed, OutOfMemory>
    requires order { since ≤ query.p }
    requires within { query.p ≤ length (R.list reader.old) }
    requires above { R.floor reader.old ≤ query.p }
    requires stands { (j : PlainJoin) × StandsAs (R.list reader.old) query.p query.at query.rank j }
    requires next { R.top ≡ query.rank }
    ensures told { IfOk result (λ told. (j : PlainJoin) → StandsAs (R.list reader.old) query.p query.at query.rank j →
        TellsJoin (R.list reader.old) since query.p query.rank j part.now.range told) }
    ensures moves { Moves R.list R.floor R.went reader.old reader.new }
    ensures counted { steps.old ≤ steps.new }
{
    let Some((id, cell)) = &part.cell else {
        return Ok(Changed::All);
    };
    let mut guard = cell.lock(room.rt);
    let Some(own) = &mut *guard else {
        return Ok(Changed::All);
    };
    let noted = reader.start_noting();
    let told = own.changes_since(
        room.alloc,
        query,
        since,
        &part.range,
        room.most,
        reader,
        steps,
    );
    let rows = rows_told(&told, own);
    reader.note_told(Use { id: *id, rows });
    own.follow(*id, followed_since(noted, rows), reader);
    match told {
        Ok(changed) => Ok(changed),
        Err(KeepFault::TooWide(_many)) => Ok(Changed::All),
        Err(KeepFault::OutOfMemory(memory)) => Err(memory),
    }
}

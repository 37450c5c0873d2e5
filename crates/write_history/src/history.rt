// The history that all threads share.
ghost use Rattle.std.specs.Prelude.{◌≡◌, ℕ, ◌+◌, ◌-◌, ◌<◌, ◌≤◌, [], ◌∷◌, ◌++◌, length, replicate, slice_get, take, drop, IfOk, IfErr, OnErr, OnOk, Some};
ghost use Rattle.join_types.specs.Writes.{plain_write};
ghost use Rattle.semantics.specs.Histories.{IsPrefix};
ghost use Rattle.join_set.specs.Sets.{AreJoins};
ghost use Rattle.base_versions.specs.Own.{own_from};
ghost use Rattle.write_history.specs.Entries.{EndsWith};
ghost use Rattle.write_history.specs.Passes.{GoesOn, entry_by, new_pass, own};
ghost use Rattle.write_history.specs.Faults.{SaysWhy};
ghost use Rattle.write_history.specs.Looks.{TellsJoins};
ghost use Rattle.write_history.specs.declared.known.Mark.TheVariants.{Free as NotPinned, Pinned, Noted};
ghost use Rattle.write_history.specs.Lines.{lines};
ghost use Rattle.write_history.specs.Rule.{dealer, first_words};
ghost use Rattle.write_history.specs.declared.known.Kinds.{Kinds};
ghost use Rattle.write_history.specs.Steps.{IsSized};
ghost use Rattle.write_history.specs.Marks.{MayAsk, before, pins, reach, words_of};

use crate::fault::AppendFault;
use crate::known::Kinds;
use crate::log::Log;
use crate::looked::Looked;
use crate::pass::Pass;
use crate::plays::Deal;
use crate::rule::{Board, Place, SharedBoard};
use crate::turn::{
    BEHIND, NO_PIN, copy_entries, copy_own, count_kept, enter, free_turn, look, look_and_pin,
    lowest, make_joins_at, note, pinned_at, raise, take_turn, tell, unpin,
};
use base_versions::Placed;
use join_set::JoinSet;
use join_types::{Entry, Write};
use out_of_memory::OutOfMemory;
use std::alloc::{AllocError, Global};
use std::marker::Model;
use std::sync::Wait;

/// The history that all threads share: one list of entries. Contracts see which history it is.
#[derive(Drop)]
pub struct History {
    alloc: Global,
    board: Board,
    /// How many passes have a pin.
    pin_words: u32,
    /// How many passes have a word.
    pass_words: u32,
}

impl Model for History {
    ghost use Rattle.std.specs.Prelude.{◌≡◌};
    ghost use Rattle.write_history.specs.Marks.{pins, words_of};
    ghost use Rattle.write_history.specs.Passes.{HistoryId};
    ghost use Rattle.write_history.specs.Steps.{IsSized};

    ghost Value = { HistoryId };

    ghost view = { λ h. record { table = h.board.shared.table_id; kinds = h.board.shared.key } };

    ghost invariant = { λ h. IsSized h.board.shared.key h.board.shared.table_id × (h.pin_words ≡ pins h.board.shared.key) × (h.pass_words ≡ words_of h.board.shared.key) };
}

/// Adds so many lines, each of a word and seven that are never used.
fn add_lines(words: &mut Vec<u64>, count: u32, word: u64) -> Result<(), OutOfMemory>
    ensures { OnOk result (words.new.items ≡ words.old.items ++ lines (replicate count word)) }
{
    for _line in 0..count {
        words.extend_from_slice(&[word, 0, 0, 0, 0, 0, 0, 0])?;
    }
    Ok(())
}

/// The words at the start, each on a line of its own: one that never changes, those of the turn, of the entries and of the floor,
/// then so many pins, and so many noted positions.
fn make_words(alloc: Global, pin_words: u32, shards: u32) -> Result<Vec<u64>, OutOfMemory>
    ensures { IfOk result (λ words. (kinds : Kinds) → pin_words ≡ pins kinds → shards ≡ kinds.shards → words.items ≡ lines (0 ∷ 0 ∷ 0 ∷ 0 ∷ first_words kinds)) }
{
    let mut words = Vec::new(alloc);
    add_lines(&mut words, 4, 0)?;
    add_lines(&mut words, pin_words, NO_PIN)?;
    add_lines(&mut words, shards, 0)?;
    Ok(words)
}

/// The table of a history without entries, and its first seat.
fn make_board(
    alloc: Global,
    kinds: Kinds,
    pin_words: u32,
    shards: u32,
) -> Result<(Board, Place), OutOfMemory>
    requires pins { pin_words ≡ pins kinds }
    requires shards { shards ≡ kinds.shards }
    ensures sized { IfOk result (λ made. IsSized made.0.shared.key made.0.shared.table_id) }
    ensures kinds { IfOk result (λ made. made.0.shared.key ≡ kinds) }
    ensures own { IfOk result (λ made. made.1.table_id ≡ made.0.shared.table_id) }
    ensures first { IfOk result (λ made. made.1.me ≡ (dealer kinds, [])) }
{
    let words = make_words(alloc, pin_words, shards)?;
    let mut logs = Vec::with_capacity(alloc, 1)?;
    logs.push(Log::new(alloc)?)?;
    match Board::new(alloc, &words, logs, &kinds) {
        Ok(made) => Ok(made),
        // What the table answers where it finds no memory carries no refusal.
        Err(_) => Err(OutOfMemory::from(AllocError)),
    }
}

/// How many passes two numbers of them are together. `OutOfMemory`: they would be more than 2^32 - 1.
fn together(some: u32, more: u32) -> Result<u32, OutOfMemory>
    ensures { IfOk result (λ count. count ≡ some + more) }
{
    match some.checked_add(more) {
        Some(count) => Ok(count),
        // Nothing refuses them: passes have numbers of 32 bits.
        None => Err(OutOfMemory::from(AllocError)),
    }
}

/// The passes with the numbers from 0 up, so many.
fn deal(
    alloc: Global,
    board: &SharedBoard,
    mut first: Place,
    count: u32,
) -> Result<Vec<Pass>, OutOfMemory>
    requires sized { IsSized board.now.key board.now.table_id }
    requires own { first.table_id ≡ board.now.table_id }
    requires first { first.me ≡ (dealer board.now.key, []) }
    ensures count { IfOk result (λ passes. length passes.items ≡ count) }
    ensures each { IfOk result (λ passes. (number : ℕ) → number < count → slice_get passes.items number ≡ Some (new_pass (record { table = board.now.table_id; kinds = board.now.key }) number)) }
{
    let mut passes = Vec::with_capacity(alloc, count as usize)?;
    for number in 0..count {
        let place = board.split_seat::<Deal>(&mut first);
        passes.push(Pass { place, number })?;
    }
    Ok(passes)
}

impl History {
    /// A history without entries, and so many passes of it, which may all write, with the numbers from 0 up. Each pass
    /// takes four bytes. The history grows by this allocator.
    pub fn new(alloc: Global, passes: u32) -> Result<(History, Vec<Pass>), OutOfMemory>
        requires { 0 < passes }
        ensures kinds { IfOk result (λ made. made.0.kinds ≡ record { writers = passes; pinned = 0; shards = 0 }) }
        ensures count { IfOk result (λ made. length made.1.items ≡ passes) }
        ensures each { IfOk result (λ made. (number : ℕ) → number < passes → slice_get made.1.items number ≡ Some (new_pass made.0 number)) }
    {
        History::with_readers(alloc, passes, 0)
    }

    /// A history without entries, and passes of it with the numbers from 0 up: first so many that may write, and then so
    /// many that only read. Each takes four bytes. The history grows by this allocator. It answers `OutOfMemory` too where
    /// there would be more than 2^32 - 1 passes.
    pub fn with_readers(
        alloc: Global,
        writers: u32,
        readers: u32,
    ) -> Result<(History, Vec<Pass>), OutOfMemory>
        requires { 0 < writers }
        ensures kinds { IfOk result (λ made. made.0.kinds ≡ record { writers = writers; pinned = 0; shards = 0 }) }
        ensures count { IfOk result (λ made. length made.1.items ≡ writers + readers) }
        ensures each { IfOk result (λ made. (number : ℕ) → number < writers + readers → slice_get made.1.items number ≡ Some (new_pass made.0 number)) }
    {
        let count = together(writers, readers)?;
        let kinds = Kinds {
            writers,
            pinned: 0,
            shards: 0,
        };
        let (board, first) = make_board(alloc, kinds, writers, 0)?;
        let passes = deal(alloc, &board.shared, first, count)?;
        let history = History {
            alloc,
            board,
            pin_words: writers,
            pass_words: writers,
        };
        Ok((history, passes))
    }

    /// A history without entries, and passes of it with the numbers from 0 up: first so many that may write, then so many that only
    /// read and can be pinned too, then so many that note positions, and then so many that only read. Each takes four bytes, and
    /// each but the last ones a line of 64 bytes for its word. The history grows by this allocator. It answers `OutOfMemory` too
    /// where there would be more than 2^32 - 1 passes.
    pub fn with_pins(
        alloc: Global,
        writers: u32,
        pinned: u32,
        shards: u32,
        readers: u32,
    ) -> Result<(History, Vec<Pass>), OutOfMemory>
        requires { 0 < writers }
        ensures kinds { IfOk result (λ made. made.0.kinds ≡ record { writers = writers; pinned = pinned; shards = shards }) }
        ensures count { IfOk result (λ made. length made.1.items ≡ writers + pinned + shards + readers) }
        ensures each { IfOk result (λ made. (number : ℕ) → number < writers + pinned + shards + readers → slice_get made.1.items number ≡ Some (new_pass made.0 number)) }
    {
        let pin_words = together(writers, pinned)?;
        let pass_words = together(pin_words, shards)?;
        let count = together(pass_words, readers)?;
        let kinds = Kinds {
            writers,
            pinned,
            shards,
        };
        let (board, first) = make_board(alloc, kinds, pin_words, shards)?;
        let passes = deal(alloc, &board.shared, first, count)?;
        let history = History {
            alloc,
            board,
            pin_words,
            pass_words,
        };
        Ok((history, passes))
    }

    /// Appends the write to the history as the pass, or says why not. The view has then all entries that the history had,
    /// and after an `Ok` the write as its last, at that position.
    ///
    /// `Refused` comes exactly where something is against the write after all entries, and carries their number. All
    /// memory is taken before the write enters, so on `OutOfMemory` nothing has entered and the pass is unchanged. While
    /// another thread has the turn, this one sleeps. It costs the verdict of the write, and for a declaration once more,
    /// besides two or three steps on shared words; no entry is copied.
    pub fn append<R: Wait>(&self, rt: &R, pass: &mut Pass, write: Write) -> Result<u64, AppendFault>
        requires same_history { pass.old.history ≡ self.now }
        requires writer { pass.old.number < pass.old.writers }
        ensures goes_on { GoesOn pass.old pass.new }
        ensures position { IfOk result (λ position. position ≡ length pass.new.view) }
        ensures entry { OnOk result (EndsWith (entry_by pass.old (plain_write write)) pass.new.view) }
        ensures once { OnOk result (own pass.new ≡ own pass.old ++ entry_by pass.old (plain_write write) ∷ []) }
        ensures fault { IfErr result (SaysWhy pass.old pass.new (plain_write write)) }
    {
        let board = &self.board.shared;
        let client = pass.number;
        take_turn(rt, board, &mut pass.place);
        let answer = enter(board, &mut pass.place, Entry { client, write });
        free_turn(board, &mut pass.place);
        answer
    }

    /// Extends the view of the pass to all entries of the history, and gives their number. Nothing is allocated. While
    /// another thread has the turn, this one sleeps.
    pub fn look<R: Wait>(&self, rt: &R, pass: &mut Pass) -> u64
        requires same_history { pass.old.history ≡ self.now }
        ensures goes_on { GoesOn pass.old pass.new }
        ensures length { result ≡ length pass.new.view }
        ensures own { own pass.new ≡ own pass.old }
    {
        let board = &self.board.shared;
        take_turn(rt, board, &mut pass.place);
        let length = look(board, &mut pass.place);
        free_turn(board, &mut pass.place);
        length
    }

    /// Extends the view of the pass to all entries of the history, as `look` does, pins the pass at their number, and gives that
    /// and the joins that stand after them. It takes the position of the last declaration or drop that is known, 0 where none is.
    /// Where this is that of the last one, the joins are those after the first so many entries, and it gives none. From the pin on,
    /// until `unpin`, no entry after its position less 65,536 is dropped, and from there on the joins tell which tables are bare
    /// (`JoinSet::bare_since`).
    ///
    /// It costs a look and compares two numbers. Where they differ, it copies the joins under the turn: at most 64, and a
    /// position for each table of which a join was dropped after the floor. While another thread has the turn, this one sleeps. On
    /// `OutOfMemory` the view is extended all the same, and the pass is not pinned.
    pub fn look_joins<R: Wait>(
        &self,
        rt: &R,
        pass: &mut Pass,
        known: u64,
    ) -> Result<Looked, OutOfMemory>
        requires same_history { pass.old.history ≡ self.now }
        requires free { pass.old.mark ≡ NotPinned }
        ensures pinned { IfOk result (λ looked. GoesOn (record pass.old { mark = Pinned looked.length }) pass.new) }
        ensures length { IfOk result (λ looked. looked.length ≡ length pass.new.view) }
        ensures told { IfOk result (λ looked. TellsJoins (before (length pass.new.view)) pass.new.view known looked.joins) }
        ensures goes_on { OnErr result (GoesOn pass.old pass.new) }
        ensures own { own pass.new ≡ own pass.old }
    {
        let board = &self.board.shared;
        let number = pass.number;
        take_turn(rt, board, &mut pass.place);
        let looked = look_and_pin(board, &mut pass.place, number, known);
        free_turn(board, &mut pass.place);
        looked
    }

    /// Each of the two passes sees what the other has seen. Nothing is allocated, no turn is taken, and it costs six loads. It
    /// waits for nobody; `rt` stands there as in the other calls.
    pub fn meet<R>(&self, _rt: &R, a: &mut Pass, b: &mut Pass)
        requires same_history { (a.old.history ≡ self.now) × (b.old.history ≡ self.now) }
        ensures first { GoesOn a.old a.new }
        ensures second { GoesOn b.old b.new }
        ensures told { IsPrefix a.old.view b.new.view × IsPrefix b.old.view a.new.view }
        ensures same { a.new.view ≡ b.new.view }
        ensures floor { a.new.floor ≡ b.new.floor }
        ensures own { (own a.new ≡ own a.old) × (own b.new ≡ own b.old) }
    {
        let board = &self.board.shared;
        tell(board, &mut a.place, &mut b.place);
        tell(board, &mut b.place, &mut a.place);
    }

    /// Equal entries of the view, from the one after `from` up to the one at `to`, positions counted from 1. The pass is
    /// unchanged. It asks for none that may be dropped: `from` is not below the position that the pass has noted, or the pass is
    /// pinned and `from` is not below that position less 65,536. Linear in the entries, under the turn; their long texts are shared.
    pub fn entries<R: Wait>(
        &self,
        rt: &R,
        pass: &mut Pass,
        from: u64,
        to: u64,
    ) -> Result<Vec<Entry>, OutOfMemory>
        requires same_history { pass.old.history ≡ self.now }
        requires order { from ≤ to }
        requires within { to ≤ length pass.old.view }
        requires kept { MayAsk pass.old.mark from }
        ensures goes_on { GoesOn pass.old pass.new }
        ensures unchanged { pass.new ≡ pass.old }
        ensures entries { IfOk result (λ copies. copies.items ≡ take (to - from) (drop from pass.old.view)) }
    {
        let board = &self.board.shared;
        take_turn(rt, board, &mut pass.place);
        let copies = copy_entries(board, &mut pass.place, self.alloc, from, to);
        free_turn(board, &mut pass.place);
        copies
    }

    /// Equal entries of the view, from the one after `from` up to the one at `to`, that put or remove a key of a table of the part
    /// with a number, of 16; each with its position. The pass is unchanged, and `from` is bounded as that of `entries` is. Under
    /// the turn it costs two searches by halves, and is linear in the part's entries; their long texts are shared.
    pub fn entries_of<R: Wait>(
        &self,
        rt: &R,
        pass: &mut Pass,
        part: u8,
        from: u64,
        to: u64,
    ) -> Result<Vec<Placed>, OutOfMemory>
        requires same_history { pass.old.history ≡ self.now }
        requires order { from ≤ to }
        requires within { to ≤ length pass.old.view }
        requires kept { MayAsk pass.old.mark from }
        ensures goes_on { GoesOn pass.old pass.new }
        ensures unchanged { pass.new ≡ pass.old }
        ensures entries { IfOk result (λ copies. copies.items ≡ own_from 16 part (from + 1) (take (to - from) (drop from pass.old.view))) }
    {
        let board = &self.board.shared;
        take_turn(rt, board, &mut pass.place);
        let copies = copy_own(board, &mut pass.place, self.alloc, part, from, to);
        free_turn(board, &mut pass.place);
        copies
    }

    /// Makes the joins of the first p entries of the view. The pass is unchanged, and p is bounded as `from` of `entries` is. Of
    /// dropped joins they tell for each position for which the pass may ask (`JoinSet::bare_since`). Under the turn it goes over
    /// the joins that stood at the floor or were declared later, with a search among the tables of dropped ones for each, and
    /// compares those that stood with each other.
    pub fn joins_at<R: Wait>(&self, rt: &R, pass: &mut Pass, p: u64) -> Result<JoinSet, OutOfMemory>
        requires same_history { pass.old.history ≡ self.now }
        requires within { p ≤ length pass.old.view }
        requires kept { MayAsk pass.old.mark p }
        ensures goes_on { GoesOn pass.old pass.new }
        ensures unchanged { pass.new ≡ pass.old }
        ensures joins { IfOk result (λ joins. (from : ℕ) → MayAsk pass.old.mark from → AreJoins from joins (take p pass.old.view)) }
    {
        let board = &self.board.shared;
        take_turn(rt, board, &mut pass.place);
        let joins = make_joins_at(board, &mut pass.place, p);
        free_turn(board, &mut pass.place);
        joins
    }

    /// Notes that nobody asks any more, by this pass, for what is before a position. The position is one that the pass has seen,
    /// and not below the last one that it has noted. Constant time; nothing is allocated, and no turn is taken. It waits for
    /// nobody; `rt` stands there as in the other calls.
    pub fn note<R>(&self, _rt: &R, pass: &mut Pass, position: u64)
        requires same_history { pass.old.history ≡ self.now }
        requires noted { (last : ℕ) × (pass.old.mark ≡ Noted last) × (last ≤ position) }
        requires within { position ≤ length pass.old.view }
        ensures { pass.new ≡ record pass.old { mark = Noted position } }
    {
        note(&self.board.shared, &mut pass.place, pass.number, position);
    }

    /// Gives the first position that the pinned pass may ask for: the one at which it is pinned less 65,536, and 0 where that is
    /// below 0. The pass is unchanged. Constant time: it loads a word that no other pass stores. Nothing is allocated, and no turn
    /// is taken.
    pub fn reach(&self, pass: &mut Pass) -> u64
        requires same_history { pass.old.history ≡ self.now }
        requires pinned { (position : ℕ) × (pass.old.mark ≡ Pinned position) }
        ensures unchanged { pass.new ≡ pass.old }
        ensures first { result ≡ reach pass.old.mark }
    {
        let pin = pinned_at(&self.board.shared, &mut pass.place, pass.number);
        pin.saturating_sub(BEHIND)
    }

    /// Takes the pin of the pass away. Constant time; nothing is allocated, and no turn is taken. It waits for nobody; `rt` stands
    /// there as in the other calls.
    pub fn unpin<R>(&self, _rt: &R, pass: &mut Pass)
        requires same_history { pass.old.history ≡ self.now }
        requires pinned { (position : ℕ) × (pass.old.mark ≡ Pinned position) }
        ensures { pass.new ≡ record pass.old { mark = NotPinned } }
    {
        unpin(&self.board.shared, &mut pass.place, pass.number);
    }

    /// Raises the floor as far as it may be, drops the entries before it, and gives it. It may be at most each noted position, and
    /// each pin less 65,536, and the number of entries less 65,536, where a difference below 0 counts as 0. The view has then all
    /// entries.
    ///
    /// Under the turn it loads a word for each pass that has one, lets the dropped entries go, and goes over the joins that stood
    /// at the floor before or were declared later, of which those that were dropped up to the floor go, and their drops are
    /// forgotten. Nothing is allocated. While another thread has the turn, this one sleeps.
    pub fn trim<R: Wait>(&self, rt: &R, pass: &mut Pass) -> u64
        requires same_history { pass.old.history ≡ self.now }
        ensures goes_on { GoesOn pass.old pass.new }
        ensures own { own pass.new ≡ own pass.old }
        ensures floor { result ≡ pass.new.floor }
        ensures within { result ≤ before (length pass.new.view) }
    {
        let board = &self.board.shared;
        take_turn(rt, board, &mut pass.place);
        let count = look(board, &mut pass.place);
        let low = lowest(
            board,
            &mut pass.place,
            self.pin_words,
            self.pass_words,
            count,
        );
        raise(board, &mut pass.place, low);
        free_turn(board, &mut pass.place);
        low
    }

    /// Extends the view of the pass to all entries of the history, as `look` does, and counts those that are stored: all but some
    /// first ones that were dropped, which are at most as many as the number of entries less 65,536. Nothing is allocated. While
    /// another thread has the turn, this one sleeps.
    pub fn kept<R: Wait>(&self, rt: &R, pass: &mut Pass) -> u64
        requires same_history { pass.old.history ≡ self.now }
        ensures goes_on { GoesOn pass.old pass.new }
        ensures own { own pass.new ≡ own pass.old }
        ensures kept { (dropped : ℕ) × (result + dropped ≡ length pass.new.view) × (pass.new.floor ≤ dropped) × (dropped ≤ before (length pass.new.view)) }
    {
        let board = &self.board.shared;
        take_turn(rt, board, &mut pass.place);
        let kept = count_kept(board, &mut pass.place);
        free_turn(board, &mut pass.place);
        kept
    }
}

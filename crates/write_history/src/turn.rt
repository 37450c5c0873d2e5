// The turn: whoever has it has the log too. Waiting for it, and what is done under it.
ghost use Rattle.std.specs.Prelude.{◌≡◌, ℕ, ◌+◌, ◌-◌, ◌^◌, ◌<◌, ◌≤◌, [], length, min, take, drop, IfOk, IfErr, OnErr, Some};
ghost use Rattle.semantics.specs.Histories.{History};
ghost use Rattle.join_set.specs.Sets.{AreJoins};
ghost use Rattle.write_history.specs.Looks.{TellsJoins};
ghost use Rattle.base_versions.specs.Own.{own_from};
ghost use Rattle.write_history.specs.Stored.{Stored};
ghost use Rattle.write_history.specs.Steps.{HasLog, IsResting, IsSized, Learns, TakesTurn, held_by};
ghost use Rattle.write_history.specs.Marks.{allowed, before, pins, words_of};
ghost use Rattle.write_history.specs.declared.known.Kinds.{Kinds};
ghost use Rattle.write_history.specs.Takes.{Carries, Declines, Drops, Enters, Raises, SaysVerdict};
ghost use Rattle.write_history.specs.declared.known.Mark.TheVariants.{Free as NotPinned, Pinned, Noted};
ghost use Rattle.write_history.specs.declared.known.Role.TheVariants.{Numbered};

use crate::fault::AppendFault;
use crate::looked::Looked;
use crate::plays::{
    Agree, Enter, Free, Look, LookAtOwn, LookOn, Note, NoteAt, Pin, Raise, Take, Unpin,
};
use crate::rule::{Place, SharedBoard};
use base_versions::Placed;
use join_set::JoinSet;
use join_types::Entry;
use out_of_memory::OutOfMemory;
use std::alloc::Global;
use std::hint;
use std::sync::Wait;

/// The number of words from one that is used to the next: each lies on a cache line of its own, so that who stores one makes
/// nobody wait who loads another.
const LINE: usize = 8;

/// A word that never changes.
const STILL: usize = 0;

/// The word of the turn.
const TURN: usize = LINE;

/// The word of the number of entries.
const COUNT: usize = 2 * LINE;

/// The word of the number of first entries that the log lacks.
const FLOOR: usize = 3 * LINE;

/// The first word of a pass.
const MARKS: usize = 4 * LINE;

/// How many entries behind a pin are kept.
pub(crate) const BEHIND: u64 = 65_536;

/// What the word of a pass says that is not pinned.
pub(crate) const NO_PIN: u64 = 1 << 48;

/// The slot of the log.
const LOG: usize = 0;

/// Nobody has the turn.
const FREE: u64 = 0;

/// A thread has the turn, and no other sleeps.
const TAKEN: u64 = 1;

/// A thread has the turn, and others may sleep until it is free.
const AWAITED: u64 = 2;

/// How often a thread looks whether the turn is free, before it sleeps.
const LOOKS: u32 = 200;

/// Waits until the turn is found free, some microseconds at most. Most threads have it for less, and to sleep and be woken
/// takes longer.
fn await_turn(board: &SharedBoard)
    requires { IsSized board.now.key board.now.table_id }
{
    for _ in 0..LOOKS {
        if board.peek(TURN) == FREE {
            return;
        }
        hint::spin_loop();
    }
}

/// Takes the turn, and the log with it. While another thread has it, this one waits for some microseconds, and then sleeps and
/// is woken.
pub(crate) fn take_turn<R: Wait>(rt: &R, board: &SharedBoard, place: &mut Place)
    requires sized { IsSized board.now.key board.now.table_id }
    requires own { place.old.table_id ≡ board.now.table_id }
    requires resting { (number : ℕ) × IsResting number place.old.me }
    ensures own { place.new.table_id ≡ place.old.table_id }
    ensures taken { TakesTurn place.old.me place.new.me }
{
    await_turn(board);
    if board.compare_exchange::<Take>(place, TURN, FREE, TAKEN) == FREE {
        return;
    }
    for _ in rt.forever() {
        await_turn(board);
        if board.swap::<Take>(place, TURN, AWAITED) == FREE {
            return;
        }
        board.park(rt, TURN, AWAITED as u32);
    }
    unreachable!()
}

/// Puts the log back, frees the turn, and wakes a thread that sleeps for it.
pub(crate) fn free_turn(board: &SharedBoard, place: &mut Place)
    requires sized { IsSized board.now.key board.now.table_id }
    requires own { place.old.table_id ≡ board.now.table_id }
    requires log { (h : History) × (log : Stored) × HasLog h log place.old.me }
    ensures own { place.new.table_id ≡ place.old.table_id }
    ensures freed { place.new.me ≡ (record place.old.me.0 { held = None }, []) }
{
    if board.swap::<Free>(place, TURN, FREE) == AWAITED {
        board.wake_one(TURN);
    }
}

/// Looks at the number of entries, and so sees them all.
pub(crate) fn look(board: &SharedBoard, place: &mut Place) -> u64
    requires sized { IsSized board.now.key board.now.table_id }
    requires own { place.old.table_id ≡ board.now.table_id }
    requires held { (h : History) × (place.old.me.0.held ≡ Some h) }
    ensures own { place.new.table_id ≡ place.old.table_id }
    ensures count { result ≡ length (held_by place.old.me.0) }
    ensures above { place.old.me.0.lacks ≤ before result }
    ensures seen { place.new.me ≡ (record place.old.me.0 { seen = held_by place.old.me.0; passed = 0; low = before result }, place.old.me.1) }
{
    board.load::<Look>(place, COUNT)
}

/// The log takes the entry, where nothing is against it.
fn take_entry(board: &SharedBoard, place: &mut Place, entry: Entry) -> Result<u64, AppendFault>
    requires own { place.old.table_id ≡ board.now.table_id }
    requires log { (h : History) × (log : Stored) × HasLog h log place.old.me }
    ensures own { place.new.table_id ≡ place.old.table_id }
    ensures taken { IfOk result (λ count. (h : History) (log : Stored) → HasLog h log place.old.me → Carries h entry count place.old.me place.new.me) }
    ensures refused { IfErr result (λ fault. (h : History) (log : Stored) → HasLog h log place.old.me → SaysVerdict h entry.write fault) }
    ensures unchanged { OnErr result (place.new.me ≡ place.old.me) }
{
    let log = place.slot_mut(board, LOG);
    log.take(entry)
}

/// The entry enters, where nothing is against it. Otherwise all entries are seen, against which it was judged.
pub(crate) fn enter(
    board: &SharedBoard,
    place: &mut Place,
    entry: Entry,
) -> Result<u64, AppendFault>
    requires sized { IsSized board.now.key board.now.table_id }
    requires own { place.old.table_id ≡ board.now.table_id }
    requires number { place.old.me.0.role ≡ Numbered entry.client }
    requires writer { entry.client < place.old.me.0.kinds.writers }
    requires log { (h : History) × (log : Stored) × HasLog h log place.old.me }
    ensures own { place.new.table_id ≡ place.old.table_id }
    ensures entered { IfOk result (λ count. (h : History) (log : Stored) → HasLog h log place.old.me → Enters h entry count place.old.me place.new.me) }
    ensures declined { IfErr result (λ fault. (h : History) (log : Stored) → HasLog h log place.old.me → Declines h entry.write place.old.me place.new.me fault) }
{
    match take_entry(board, place, entry) {
        Ok(count) => {
            board.store::<Enter>(place, COUNT, count);
            Ok(count)
        }
        Err(AppendFault::Refused(position, cause)) => {
            look(board, place);
            Err(AppendFault::Refused(position, cause))
        }
        Err(AppendFault::OutOfMemory(memory)) => Err(AppendFault::OutOfMemory(memory)),
    }
}

/// Equal entries from one position up to another, out of the log.
pub(crate) fn copy_entries(
    board: &SharedBoard,
    place: &mut Place,
    alloc: Global,
    from: u64,
    to: u64,
) -> Result<Vec<Entry>, OutOfMemory>
    requires own { place.old.table_id ≡ board.now.table_id }
    requires log { (h : History) × (log : Stored) × HasLog h log place.old.me × (place.old.me.0.lacks ≤ from) × (to ≤ length h) }
    requires order { from ≤ to }
    ensures own { place.new.table_id ≡ place.old.table_id }
    ensures unchanged { place.new.me ≡ place.old.me }
    ensures copies { IfOk result (λ copies. (h : History) (log : Stored) → HasLog h log place.old.me → copies.items ≡ take (to - from) (drop from h)) }
{
    let log = place.slot_mut(board, LOG);
    log.copy(alloc, from, to)
}

/// Equal entries from one position up to another that put or remove a key of a table of the part, out of the log.
pub(crate) fn copy_own(
    board: &SharedBoard,
    place: &mut Place,
    alloc: Global,
    part: u8,
    from: u64,
    to: u64,
) -> Result<Vec<Placed>, OutOfMemory>
    requires own { place.old.table_id ≡ board.now.table_id }
    requires log { (h : History) × (log : Stored) × HasLog h log place.old.me × (place.old.me.0.lacks ≤ from) × (to ≤ length h) }
    requires order { from ≤ to }
    ensures own { place.new.table_id ≡ place.old.table_id }
    ensures unchanged { place.new.me ≡ place.old.me }
    ensures copies { IfOk result (λ copies. (h : History) (log : Stored) → HasLog h log place.old.me → copies.items ≡ own_from 16 part (from + 1) (take (to - from) (drop from h))) }
{
    let log = place.slot_mut(board, LOG);
    log.copy_own(alloc, part, from, to)
}

/// Makes the joins of the first p entries, of which the log lacks no more, out of the log.
pub(crate) fn make_joins_at(
    board: &SharedBoard,
    place: &mut Place,
    p: u64,
) -> Result<JoinSet, OutOfMemory>
    requires own { place.old.table_id ≡ board.now.table_id }
    requires log { (h : History) × (log : Stored) × HasLog h log place.old.me × (place.old.me.0.lacks ≤ p) × (p ≤ length h) }
    ensures own { place.new.table_id ≡ place.old.table_id }
    ensures unchanged { place.new.me ≡ place.old.me }
    ensures joins { IfOk result (λ joins. (h : History) (log : Stored) → HasLog h log place.old.me → AreJoins place.old.me.0.lacks joins (take p h)) }
{
    let log = place.slot_mut(board, LOG);
    log.joins_at(p)
}

/// Copies the joins that stand, out of the log. It gives none where the last declaration or drop is at the position that is
/// known.
fn copy_joins(
    board: &SharedBoard,
    place: &mut Place,
    known: u64,
) -> Result<Option<JoinSet>, OutOfMemory>
    requires own { place.old.table_id ≡ board.now.table_id }
    requires log { (h : History) × (log : Stored) × HasLog h log place.old.me }
    ensures own { place.new.table_id ≡ place.old.table_id }
    ensures unchanged { place.new.me ≡ place.old.me }
    ensures told { IfOk result (λ told. (h : History) (log : Stored) → HasLog h log place.old.me → TellsJoins place.old.me.0.lacks h known told) }
{
    let log = place.slot_mut(board, LOG);
    log.joins_unless(known)
}

/// Looks at the number of entries, and so sees them all, and copies the joins that stand out of the log. It gives none where the
/// last declaration or drop is at the position that is known. On `OutOfMemory` it has looked all the same.
pub(crate) fn look_joins(
    board: &SharedBoard,
    place: &mut Place,
    known: u64,
) -> Result<Looked, OutOfMemory>
    requires sized { IsSized board.now.key board.now.table_id }
    requires own { place.old.table_id ≡ board.now.table_id }
    requires log { (h : History) × (log : Stored) × HasLog h log place.old.me }
    ensures own { place.new.table_id ≡ place.old.table_id }
    ensures seen { place.new.me ≡ (record place.old.me.0 { seen = held_by place.old.me.0; passed = 0; low = before (length (held_by place.old.me.0)) }, place.old.me.1) }
    ensures above { place.old.me.0.lacks ≤ before (length (held_by place.old.me.0)) }
    ensures count { IfOk result (λ looked. looked.length ≡ length (held_by place.old.me.0)) }
    ensures told { IfOk result (λ looked. (h : History) (log : Stored) → HasLog h log place.old.me → TellsJoins place.old.me.0.lacks h known looked.joins) }
{
    let length = look(board, place);
    let joins = copy_joins(board, place, known)?;
    Ok(Looked { length, joins })
}

/// Looks as `look_joins` does, and pins the pass with a number after all entries. On `OutOfMemory` it has looked all the same, and
/// the pass is not pinned.
pub(crate) fn look_and_pin(
    board: &SharedBoard,
    place: &mut Place,
    number: u32,
    known: u64,
) -> Result<Looked, OutOfMemory>
    requires sized { IsSized board.now.key board.now.table_id }
    requires own { place.old.table_id ≡ board.now.table_id }
    requires number { place.old.me.0.role ≡ Numbered number }
    requires placed { number < words_of board.now.key }
    requires free { place.old.me.0.mark ≡ NotPinned }
    requires log { (h : History) × (log : Stored) × HasLog h log place.old.me }
    ensures own { place.new.table_id ≡ place.old.table_id }
    ensures pinned { IfOk result (λ looked. place.new.me ≡ (record place.old.me.0 { mark = Pinned looked.length; seen = held_by place.old.me.0; passed = 0; low = before looked.length }, place.old.me.1)) }
    ensures declined { OnErr result (place.new.me ≡ (record place.old.me.0 { seen = held_by place.old.me.0; passed = 0; low = before (length (held_by place.old.me.0)) }, place.old.me.1)) }
    ensures above { place.old.me.0.lacks ≤ before (length (held_by place.old.me.0)) }
    ensures count { IfOk result (λ looked. looked.length ≡ length (held_by place.old.me.0)) }
    ensures told { IfOk result (λ looked. (h : History) (log : Stored) → HasLog h log place.old.me → TellsJoins place.old.me.0.lacks h known looked.joins) }
{
    let looked = look_joins(board, place, known)?;
    pin(board, place, number, looked.length);
    Ok(looked)
}

/// The number of first entries that the log lacks.
fn count_lacking(board: &SharedBoard, place: &mut Place) -> u64
    requires own { place.old.table_id ≡ board.now.table_id }
    requires log { (h : History) × (log : Stored) × HasLog h log place.old.me }
    ensures own { place.new.table_id ≡ place.old.table_id }
    ensures unchanged { place.new.me ≡ place.old.me }
    ensures lacks { result ≡ place.old.me.0.lacks }
{
    place.slot_mut(board, LOG).lacks()
}

/// Looks at the number of entries, and so sees them all, and counts those that are stored.
pub(crate) fn count_kept(board: &SharedBoard, place: &mut Place) -> u64
    requires sized { IsSized board.now.key board.now.table_id }
    requires own { place.old.table_id ≡ board.now.table_id }
    requires log { (h : History) × (log : Stored) × HasLog h log place.old.me }
    ensures own { place.new.table_id ≡ place.old.table_id }
    ensures seen { place.new.me ≡ (record place.old.me.0 { seen = held_by place.old.me.0; passed = 0; low = before (length (held_by place.old.me.0)) }, place.old.me.1) }
    ensures above { place.old.me.0.lacks ≤ before (length (held_by place.old.me.0)) }
    ensures kept { result + place.old.me.0.lacks ≡ length (held_by place.old.me.0) }
{
    let count = look(board, place);
    count - count_lacking(board, place)
}

/// Pins the pass with a number after all entries, of which there are so many.
pub(crate) fn pin(board: &SharedBoard, place: &mut Place, number: u32, count: u64)
    requires sized { IsSized board.now.key board.now.table_id }
    requires own { place.old.table_id ≡ board.now.table_id }
    requires number { place.old.me.0.role ≡ Numbered number }
    requires placed { number < words_of board.now.key }
    requires held { (h : History) × (place.old.me.0.held ≡ Some h) × (count ≡ length h) }
    requires free { place.old.me.0.mark ≡ NotPinned }
    ensures own { place.new.table_id ≡ place.old.table_id }
    ensures pinned { place.new.me ≡ (record place.old.me.0 { mark = Pinned count; passed = 0 }, place.old.me.1) }
{
    board.store::<Pin>(place, MARKS + LINE * number as usize, count);
}

/// Takes the pin of the pass with a number away.
pub(crate) fn unpin(board: &SharedBoard, place: &mut Place, number: u32)
    requires sized { IsSized board.now.key board.now.table_id }
    requires own { place.old.table_id ≡ board.now.table_id }
    requires same_kinds { place.old.me.0.kinds ≡ board.now.key }
    requires resting { IsResting number place.old.me }
    requires pinned { (position : ℕ) × (place.old.me.0.mark ≡ Pinned position) }
    ensures own { place.new.table_id ≡ place.old.table_id }
    ensures free { place.new.me ≡ (record place.old.me.0 { mark = NotPinned }, place.old.me.1) }
{
    board.store::<Unpin>(place, MARKS + LINE * number as usize, NO_PIN);
}

/// Where the pass with a number is pinned.
pub(crate) fn pinned_at(board: &SharedBoard, place: &mut Place, number: u32) -> u64
    requires sized { IsSized board.now.key board.now.table_id }
    requires own { place.old.table_id ≡ board.now.table_id }
    requires same_kinds { place.old.me.0.kinds ≡ board.now.key }
    requires resting { IsResting number place.old.me }
    requires pinned { (position : ℕ) × (place.old.me.0.mark ≡ Pinned position) }
    ensures own { place.new.table_id ≡ place.old.table_id }
    ensures unchanged { place.new.me ≡ place.old.me }
    ensures position { (position : ℕ) → place.old.me.0.mark ≡ Pinned position → result ≡ position }
{
    board.load::<LookAtOwn>(place, MARKS + LINE * number as usize)
}

/// Notes a position for the pass with a number.
pub(crate) fn note(board: &SharedBoard, place: &mut Place, number: u32, position: u64)
    requires sized { IsSized board.now.key board.now.table_id }
    requires own { place.old.table_id ≡ board.now.table_id }
    requires same_kinds { place.old.me.0.kinds ≡ board.now.key }
    requires resting { IsResting number place.old.me }
    requires noted { (before : ℕ) × (place.old.me.0.mark ≡ Noted before) × (before ≤ position) }
    ensures own { place.new.table_id ≡ place.old.table_id }
    ensures noted { place.new.me ≡ (record place.old.me.0 { mark = Noted position }, place.old.me.1) }
{
    board.store::<NoteAt>(place, MARKS + LINE * number as usize, position);
}

/// The smaller of two numbers.
fn least(a: u64, b: u64) -> u64
    ensures { result ≡ min a b }
{
    if a <= b { a } else { b }
}

/// The greatest floor that the word of the pass with a number allows, where so many passes have a pin.
fn bound_of(pin_words: u32, number: u32, word: u64) -> u64
    ensures { (kinds : Kinds) → pin_words ≡ pins kinds → result ≡ allowed kinds number word }
{
    if number < pin_words {
        return word.saturating_sub(BEHIND);
    }
    word
}

/// The greatest floor that the number of entries and the words of all passes allow. There are so many words, the first ones
/// of which are pins.
pub(crate) fn lowest(
    board: &SharedBoard,
    place: &mut Place,
    pin_words: u32,
    words: u32,
    count: u64,
) -> u64
    requires sized { IsSized board.now.key board.now.table_id }
    requires own { place.old.table_id ≡ board.now.table_id }
    requires same_kinds { place.old.me.0.kinds ≡ board.now.key }
    requires pins { pin_words ≡ pins board.now.key }
    requires words { words ≡ words_of board.now.key }
    requires number { (number : ℕ) × (place.old.me.0.role ≡ Numbered number) }
    requires held { (h : History) × (place.old.me.0.held ≡ Some h) }
    requires begun { (place.old.me.0.passed ≡ 0) × (place.old.me.0.low ≡ before count) × (place.old.me.0.lacks ≤ before count) }
    ensures own { place.new.table_id ≡ place.old.table_id }
    ensures lowest { place.new.me ≡ (record place.old.me.0 { passed = words; low = result }, place.old.me.1) }
    ensures above { place.old.me.0.lacks ≤ result }
    ensures within { result ≤ before count }
{
    let mut low = count.saturating_sub(BEHIND);
    for number in 0..words {
        let word = board.load::<LookOn>(place, MARKS + LINE * number as usize);
        low = least(low, bound_of(pin_words, number, word));
    }
    low
}

/// The log drops its first entries up to a position.
fn drop_to(board: &SharedBoard, place: &mut Place, floor: u64)
    requires own { place.old.table_id ≡ board.now.table_id }
    requires log { (h : History) × (log : Stored) × HasLog h log place.old.me × (place.old.me.0.lacks ≤ floor) × (floor ≤ length h) }
    ensures own { place.new.table_id ≡ place.old.table_id }
    ensures dropped { (h : History) (log : Stored) → HasLog h log place.old.me → place.old.me.0.lacks ≤ floor → floor ≤ length h → Drops h floor place.old.me place.new.me }
{
    let log = place.slot_mut(board, LOG);
    log.drop_to(floor);
}

/// The log drops its first entries up to what all words allow, and the floor is raised there.
pub(crate) fn raise(board: &SharedBoard, place: &mut Place, low: u64)
    requires sized { IsSized board.now.key board.now.table_id }
    requires own { place.old.table_id ≡ board.now.table_id }
    requires number { (number : ℕ) × (place.old.me.0.role ≡ Numbered number) }
    requires log { (h : History) × (log : Stored) × HasLog h log place.old.me × (place.old.me.0.lacks ≤ low) × (low ≤ length h) }
    requires passed { place.old.me.0.passed ≡ words_of place.old.me.0.kinds }
    requires low { place.old.me.0.low ≡ low }
    ensures own { place.new.table_id ≡ place.old.table_id }
    ensures raised { (h : History) (log : Stored) → HasLog h log place.old.me → low ≤ length h → Raises h low place.old.me place.new.me }
{
    drop_to(board, place, low);
    board.store::<Raise>(place, FLOOR, low);
}

/// One seat tells another what it has seen, by a note. The other then has seen the longer of the two.
pub(crate) fn tell(board: &SharedBoard, place: &mut Place, other: &mut Place)
    requires sized { IsSized board.now.key board.now.table_id }
    requires own { (place.old.table_id ≡ board.now.table_id) × (other.old.table_id ≡ board.now.table_id) }
    requires resting { ((number : ℕ) × IsResting number place.old.me) × ((number : ℕ) × IsResting number other.old.me) }
    ensures own { (place.new.table_id ≡ place.old.table_id) × (other.new.table_id ≡ other.old.table_id) }
    ensures unchanged { place.new.me ≡ place.old.me }
    ensures told { Learns other.old.me place.old.me.0.seen place.old.me.0.floor other.new.me }
{
    let note = board.split_seat::<Note>(place);
    board.join_seat::<Note>(other, note);
    board.load::<Agree>(other, STILL);
}

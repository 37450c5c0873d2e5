// The verdicts of writes after others, and sets of joins that may stand.
//
// Writes are offered in order, and each that nothing refuses enters. A join is refused by the first that holds of: the rule on
// slots, the rule on sources, a clash of outputs, a cycle, a rank above 7, and 64 joins that stand; a put or remove where its key
// is computed; a drop where no join stands that was declared at its position.
use crate::answer::Answer;
use crate::words::{read_numbers, read_write, tell_cause};
use join_lang::{parse, print};
use join_set::{AddFault, JoinSet, Standing};
use join_types::{Cause, Join, Positions, Write};
use key_space::Key;
use out_of_memory::OutOfMemory;
use std::alloc::{AllocError, Global};
use test_rows::Fields;

/// Returns the verdict of the write, which enters where there is none.
fn offer(standing: &mut Standing, write: &Write) -> Result<Option<Cause>, OutOfMemory> {
    match standing.judge(write)? {
        None => {
            standing.enter(write)?;
            Ok(None)
        }
        Some(cause) => Ok(Some(cause)),
    }
}

/// Tells the joins of a set, each with its rank, its position and its text.
pub fn tell_joins(alloc: Global, joins: &JoinSet, answer: &mut Answer) -> Option<()> {
    for i in 0..joins.len() {
        answer.tell(&joins.rank(i));
        answer.say("of");
        answer.tell(&joins.at(i));
        let text = print(alloc, joins.join(i)).ok()?;
        answer.say(text.as_str());
    }
    Some(())
}

/// Tells of the joins that stood after so many entries, from the floor on: each of them, or where `bare POSITION TABLE` follows the
/// number, whether the table is bare by them from the position on.
fn tell_earlier(
    alloc: Global,
    standing: &Standing,
    asked: &str,
    answer: &mut Answer,
) -> Option<()> {
    let (entries, bare) = match asked.split_once(" bare ") {
        Some((entries, bare)) => (entries, Some(bare)),
        None => (asked, None),
    };
    let entries = entries.parse::<u64>().ok()?;
    let (floor, length) = (standing.floor(), standing.length());
    if entries < floor || entries > length {
        return None;
    }
    let joins = standing.joins_at(entries).ok()?;
    match bare {
        Some(bare) => tell_bare(&joins, bare, answer),
        None => tell_joins(alloc, &joins, answer),
    }
}

/// Raises the floor to so many entries.
fn raise_floor(standing: &mut Standing, entries: &str, answer: &mut Answer) -> Option<()> {
    let entries = entries.parse::<u64>().ok()?;
    let (floor, length) = (standing.floor(), standing.length());
    if entries < floor || entries > length {
        return None;
    }
    standing.settle(entries);
    answer.tell(&standing.floor());
    Some(())
}

/// Tells whether a table is bare from a position on, which stand beside each other: `POSITION TABLE`.
fn tell_bare(joins: &JoinSet, asked: &str, answer: &mut Answer) -> Option<()> {
    let (position, table) = asked.split_once(' ')?;
    let position = position.parse::<u64>().ok()?;
    answer.tell(&joins.bare_since(position, table));
    Some(())
}

/// Takes one step: a write is offered, `length` asks for the number of entries, `count` for the number of joins, `changed` for
/// the last declaration or drop, `bare POSITION TABLE` whether the table is bare from there on, `joins` for each join,
/// `joins NUMBER` for those after so many entries, `joins NUMBER bare POSITION TABLE` whether the table is bare from the position
/// on by these, and `settle NUMBER` raises the floor to so many.
fn take_step(
    alloc: Global,
    standing: &mut Standing,
    step: &str,
    answer: &mut Answer,
) -> Option<()> {
    if let Some(asked) = step.strip_prefix("bare ") {
        return tell_bare(standing.joins(), asked, answer);
    }
    if let Some(asked) = step.strip_prefix("joins ") {
        return tell_earlier(alloc, standing, asked, answer);
    }
    if let Some(entries) = step.strip_prefix("settle ") {
        return raise_floor(standing, entries, answer);
    }
    match step {
        "length" => answer.tell(&standing.length()),
        "count" => answer.tell(&standing.joins().len()),
        "changed" => answer.tell(&standing.joins().changed_at()),
        "joins" => return tell_joins(alloc, standing.joins(), answer),
        _ => {
            let write = read_write(alloc, step)?;
            match offer(standing, &write).ok()? {
                None => answer.say("entered"),
                Some(cause) => tell_cause(&cause, answer),
            }
        }
    }
    Some(())
}

/// Takes steps from a history with no entries.
fn take_steps(alloc: Global, fields: &mut Fields<'_>, answer: &mut Answer) -> Option<()> {
    let mut standing = Standing::new(alloc);
    for step in fields.rest().split(';') {
        take_step(alloc, &mut standing, step, answer)?;
    }
    Some(())
}

/// Tells why a join is refused, or that it is not.
fn tell_refusal(verdict: Result<(), AddFault>, answer: &mut Answer) {
    match verdict {
        Ok(()) => answer.say("not refused"),
        Err(fault) => answer.tell(&fault),
    }
}

/// Returns a copy of the set of the first join at the position 4, to which the second is offered at 5, which is to be refused.
fn grow_set(
    alloc: Global,
    first: Join,
    second: Join,
    answer: &mut Answer,
) -> Result<JoinSet, AddFault> {
    let mut set = JoinSet::new(alloc);
    answer.tell(&set.is_empty());
    set.refuses(4, &first)?;
    set.add(4, first)?;
    tell_refusal(set.refuses(5, &second), answer);
    tell_refusal(set.add(5, second), answer);
    Ok(set.copy()?)
}

/// Grows a set by two joins, and tells a copy of it and which of its joins computes a key.
fn grow(alloc: Global, fields: &mut Fields<'_>, answer: &mut Answer) -> Option<()> {
    let first = parse(alloc, fields.next()).ok()?;
    let second = parse(alloc, fields.next()).ok()?;
    let key = Key::read(alloc, fields.next()).ok()?;
    let copy = grow_set(alloc, first, second, answer).ok()?;
    answer.tell(&copy.len());
    answer.show(&copy.owner(&key));
    tell_joins(alloc, &copy, answer)
}

/// Returns the set of the first join at the position 4 and the second at 5, from which the one at a position is taken out at 6.
/// It tells whether that is refused.
fn shrink_set(
    alloc: Global,
    first: Join,
    second: Join,
    position: u64,
    answer: &mut Answer,
) -> Result<JoinSet, AddFault> {
    let mut set = JoinSet::new(alloc);
    set.add(4, first)?;
    set.add(5, second)?;
    match set.remove(6, position) {
        Ok(()) => answer.say("not refused"),
        Err(fault) => answer.tell(&fault),
    }
    Ok(set)
}

/// Takes a join out of a set of two, and tells the last change, whether a table is bare from the positions 5 and 6 on, and the
/// joins that are left.
fn shrink(alloc: Global, fields: &mut Fields<'_>, answer: &mut Answer) -> Option<()> {
    let first = parse(alloc, fields.next()).ok()?;
    let second = parse(alloc, fields.next()).ok()?;
    let position = fields.next().parse::<u64>().ok()?;
    let table = fields.next();
    let set = shrink_set(alloc, first, second, position, answer).ok()?;
    answer.tell(&set.changed_at());
    answer.tell(&set.bare_since(5, table));
    answer.tell(&set.bare_since(6, table));
    tell_joins(alloc, &set, answer)
}

/// Tells the fault of a name and of numbers.
fn tell_fault(alloc: Global, fields: &mut Fields<'_>, answer: &mut Answer) -> Option<()> {
    let name = fields.next();
    let numbers = read_numbers(alloc, fields.next())?;
    let fault = match name {
        "slots" => AddFault::Slots,
        "sources" => AddFault::Sources,
        "clash" => AddFault::Clash(numbers.first().copied().unwrap_or(0)),
        "cycle" => AddFault::Cycle(Positions::of(numbers)),
        "deep" => AddFault::Deep,
        "many" => AddFault::Many,
        "memory" => AddFault::OutOfMemory(AllocError.into()),
        _ => return None,
    };
    answer.tell(&fault);
    Some(())
}

/// Runs a row of this kind.
pub fn run(alloc: Global, kind: &str, fields: &mut Fields<'_>, answer: &mut Answer) -> Option<()> {
    match kind {
        "writes" => take_steps(alloc, fields, answer),
        "grow" => grow(alloc, fields, answer),
        "shrink" => shrink(alloc, fields, answer),
        "fault" => tell_fault(alloc, fields, answer),
        _ => None,
    }
}

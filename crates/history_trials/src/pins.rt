// What holds the floor, that is, how many first entries the history lets go, with ample memory. It is at most each noted position,
// each pin less 65,536, and the number of entries less 65,536.
ghost use Rattle.std.specs.Prelude.{◌≡◌};
ghost use Rattle.write_history.specs.Passes.{MayAppend};
ghost use Rattle.write_history.specs.declared.known.Mark.TheVariants.{Noted};
ghost use Rattle.history_trials.specs.Seated.{IsFree, IsPinned};

use crate::appends::{copy_of, number_of, put_of};
use crate::seats::{Seats, make_seats, pin, pop_pinned, pop_shard, pop_writer, unpin};
use join_types::{Entry, Write};
use std::alloc::Global;
use std::process::Abort;
use std::sync::Wait;
use std::test::Fail;
use write_history::{History, Pass};

/// Appends puts at the key, from where so many entries are until there are so many. Each puts how many there were before it.
pub fn fill<R: Wait + Abort>(
    rt: &R,
    alloc: Global,
    history: &History,
    writer: &mut Pass,
    key: &str,
    from: u32,
    to: u32,
)
    requires { MayAppend history.now writer.old }
    ensures may { MayAppend history.now writer.new }
    ensures mark { writer.new.mark ≡ writer.old.mark }
{
    for number in from..to {
        let entered = history.append(rt, writer, put_of(rt, alloc, key, number));
        let position = u64::from(number) + 1;
        assert!(rt; matches!(&entered, Ok(at) if *at == position));
    }
}

/// Raises the floor as far as it may be: it is this one then, and so many entries are kept.
fn expect_floor<R: Wait + Abort>(rt: &R, history: &History, pass: &mut Pass, floor: u64, kept: u64)
    requires { MayAppend history.now pass.old }
    ensures may { MayAppend history.now pass.new }
    ensures mark { pass.new.mark ≡ pass.old.mark }
{
    let raised = history.trim(rt, pass);
    let stored = history.kept(rt, pass);
    assert!(rt; raised == floor && stored == kept);
}

/// The first of these entries puts how many entries there were before it.
fn expect_first(rt: &impl Abort, alloc: Global, entries: &[Entry], before: u64) {
    let first = entries.first().expect(rt, "an entry");
    let wanted = format!(in alloc; "{before}").expect(rt, "memory");
    assert!(rt; number_of(rt, &first.write) == wanted.as_str());
}

/// When a pass is pinned, how many entries there are then, and what the floor may be while it is pinned and later.
#[derive(Clone, Copy)]
struct Held {
    /// After how many entries it is pinned.
    pin: u32,
    /// How many entries there are in the end.
    length: u32,
    /// The floor while it is pinned.
    floor: u64,
    /// The floor once it is not.
    later: u64,
}

/// A pin that is behind all others, and nothing is noted.
const HELD: [Held; 6] = [
    Held {
        pin: 1,
        length: 65_536,
        floor: 0,
        later: 0,
    },
    Held {
        pin: 1,
        length: 65_537,
        floor: 0,
        later: 1,
    },
    Held {
        pin: 65_536,
        length: 70_000,
        floor: 0,
        later: 4_464,
    },
    Held {
        pin: 65_537,
        length: 70_000,
        floor: 1,
        later: 4_464,
    },
    Held {
        pin: 69_632,
        length: 70_000,
        floor: 4_096,
        later: 4_464,
    },
    Held {
        pin: 70_000,
        length: 70_000,
        floor: 4_464,
        later: 4_464,
    },
];

/// The pinned pass may ask for the last 65,536 entries up to its pin, or for all.
fn expect_reach<R: Wait + Abort>(rt: &R, alloc: Global, history: &History, pass: &mut Pass, at: u64)
    requires { IsPinned history.now pass.old at }
    ensures { IsPinned history.now pass.new at }
{
    let first = history.reach(pass);
    assert!(rt; first == at.saturating_sub(65_536) && first <= at);
    let entries = history.entries(rt, pass, first, at).expect(rt, "memory");
    assert!(rt; entries.len() as u64 == at - first);
    expect_first(rt, alloc, &entries, first);
}

/// A pass is pinned while another writes. The floor is held until it is not pinned any more.
fn hold<R: Wait + Abort>(
    rt: &R,
    alloc: Global,
    history: &History,
    writer: &mut Pass,
    pass: &mut Pass,
    held: Held,
)
    requires writer { MayAppend history.now writer.old }
    requires pass { IsFree history.now pass.old }
{
    let length = u64::from(held.length);
    fill(rt, alloc, history, writer, "p|", 0, held.pin);
    let at = pin(rt, history, pass);
    assert!(rt; at == u64::from(held.pin));
    fill(rt, alloc, history, writer, "p|", held.pin, held.length);
    expect_floor(
        rt,
        history,
        writer,
        held.floor,
        length.saturating_sub(held.floor),
    );
    expect_reach(rt, alloc, history, pass, at);
    unpin(rt, history, pass, at);
    expect_floor(
        rt,
        history,
        writer,
        held.later,
        length.saturating_sub(held.later),
    );
}

#[test]
fn a_pinned_pass_holds_the_floor(rt: HostRuntime) -> Result<(), Fail> {
    let alloc = rt.alloc();
    for held in HELD {
        let mut seats = make_seats(alloc, 1, 1, 0, 0)?;
        let mut writer = pop_writer(&rt, &seats.history, &mut seats.writers);
        let mut pass = pop_pinned(&rt, &seats.history, &mut seats.pinned);
        hold(&rt, alloc, &seats.history, &mut writer, &mut pass, held);
    }
    Ok(())
}

#[test]
fn a_writer_that_is_pinned_holds_the_floor(rt: HostRuntime) -> Result<(), Fail> {
    let alloc = rt.alloc();
    let held = Held {
        pin: 65_540,
        length: 70_000,
        floor: 4,
        later: 4_464,
    };
    let mut seats = make_seats(alloc, 2, 0, 0, 0)?;
    let mut pass = pop_writer(&rt, &seats.history, &mut seats.writers);
    let mut writer = pop_writer(&rt, &seats.history, &mut seats.writers);
    hold(&rt, alloc, &seats.history, &mut writer, &mut pass, held);
    Ok(())
}

/// What two passes note, one after another, and the floor then. There are 70,000 entries.
const NOTED: [(u64, u64, u64); 7] = [
    (0, 0, 0),
    (0, 4_096, 0),
    (4_095, 4_096, 4_095),
    (4_095, 69_999, 4_095),
    (4_096, 69_999, 4_096),
    (4_465, 69_999, 4_464),
    (69_999, 69_999, 4_464),
];

/// Looks, and notes a position. The one that was noted last is known.
fn note_at<R: Wait + Abort>(rt: &R, history: &History, shard: &mut Pass, last: u64, position: u64)
    requires same_history { shard.old.history ≡ history.now }
    requires noted { shard.old.mark ≡ Noted last }
    ensures same_history { shard.new.history ≡ history.now }
    ensures noted { shard.new.mark ≡ Noted position }
{
    let length = history.look(rt, shard);
    assert!(rt; last <= position && position <= length);
    history.note(rt, shard, position);
}

/// The pass may ask for what follows the position that it has noted.
fn expect_next<R: Wait + Abort>(
    rt: &R,
    alloc: Global,
    history: &History,
    shard: &mut Pass,
    noted: u64,
)
    requires same_history { shard.old.history ≡ history.now }
    requires noted { shard.old.mark ≡ Noted noted }
    ensures same_history { shard.new.history ≡ history.now }
    ensures noted { shard.new.mark ≡ Noted noted }
{
    let length = history.look(rt, shard);
    assert!(rt; noted < length);
    let asked = history.entries(rt, shard, noted, noted + 1);
    expect_first(rt, alloc, &asked.expect(rt, "memory"), noted);
}

/// Two passes note positions, and the floor is raised after each.
fn note_rows<R: Wait + Abort>(
    rt: &R,
    alloc: Global,
    history: &History,
    writer: &mut Pass,
    first: &mut Pass,
    second: &mut Pass,
)
    requires writer { MayAppend history.now writer.old }
    requires first { first.old.history ≡ history.now }
    requires first_noted { first.old.mark ≡ Noted 0 }
    requires second { second.old.history ≡ history.now }
    requires second_noted { second.old.mark ≡ Noted 0 }
{
    let mut one = 0;
    let mut other = 0;
    for (next, another, floor) in NOTED {
        note_at(rt, history, first, one, next);
        note_at(rt, history, second, other, another);
        one = next;
        other = another;
        expect_floor(rt, history, writer, floor, 70_000u64.saturating_sub(floor));
        expect_next(rt, alloc, history, first, one);
    }
}

#[test]
fn what_is_noted_holds_the_floor(rt: HostRuntime) -> Result<(), Fail> {
    let alloc = rt.alloc();
    let Seats {
        history,
        mut writers,
        mut shards,
        ..
    } = make_seats(alloc, 1, 0, 2, 0)?;
    let mut writer = pop_writer(&rt, &history, &mut writers);
    let mut second = pop_shard(&rt, &history, &mut shards);
    let mut first = pop_shard(&rt, &history, &mut shards);
    fill(&rt, alloc, &history, &mut writer, "p|", 0, 70_000);
    note_rows(&rt, alloc, &history, &mut writer, &mut first, &mut second);
    Ok(())
}

/// Of two joins, one was dropped below the floor, and the other not long ago: until then it stands from the floor on.
fn expect_joins<R: Wait + Abort>(rt: &R, history: &History, reader: &mut Pass, at: u64)
    requires { IsPinned history.now reader.old at }
    ensures { IsPinned history.now reader.new at }
{
    let first = history.reach(reader);
    assert!(rt; first == 464 && at == 66_000);
    let early = history.joins_at(rt, reader, first).expect(rt, "memory");
    let last = history.joins_at(rt, reader, 65_998).expect(rt, "memory");
    let none = history.joins_at(rt, reader, 65_999).expect(rt, "memory");
    assert!(rt; early.len() == 1 && early.at(0) == 2 && early.changed_at() == 3);
    assert!(rt; last.len() == 1 && last.changed_at() == 3);
    assert!(rt; none.is_empty() && none.changed_at() == 65_999);
}

/// Declares two joins and drops the first.
fn declare_two<R: Wait + Abort>(
    rt: &R,
    alloc: Global,
    history: &History,
    writer: &mut Pass,
) -> Result<(), Fail>
    requires { MayAppend history.now writer.old }
    ensures may { MayAppend history.now writer.new }
    ensures mark { writer.new.mark ≡ writer.old.mark }
{
    let first = history.append(rt, writer, Write::Declare(copy_of(rt, alloc, "b")?));
    let second = history.append(rt, writer, Write::Declare(copy_of(rt, alloc, "c")?));
    let dropped = history.append(rt, writer, Write::Drop(1));
    assert!(rt; matches!(&first, Ok(1)) && matches!(&second, Ok(2)) && matches!(&dropped, Ok(3)));
    Ok(())
}

#[test]
fn joins_outlive_their_entries(rt: HostRuntime) -> Result<(), Fail> {
    let alloc = rt.alloc();
    let Seats {
        history,
        mut writers,
        mut pinned,
        ..
    } = make_seats(alloc, 1, 1, 0, 0)?;
    let mut writer = pop_writer(&rt, &history, &mut writers);
    let mut reader = pop_pinned(&rt, &history, &mut pinned);
    declare_two(&rt, alloc, &history, &mut writer)?;
    fill(&rt, alloc, &history, &mut writer, "a|x", 3, 65_998);
    let dropped = history.append(&rt, &mut writer, Write::Drop(2));
    assert!(rt; matches!(&dropped, Ok(65_999)));
    fill(&rt, alloc, &history, &mut writer, "a|x", 65_999, 66_000);
    expect_floor(&rt, &history, &mut writer, 464, 65_536);
    let at = pin(&rt, &history, &mut reader);
    expect_joins(&rt, &history, &mut reader, at);
    Ok(())
}

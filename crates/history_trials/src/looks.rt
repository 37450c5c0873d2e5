// What a look that asks for joins gives, by the position that is known.
ghost use Rattle.std.specs.Prelude.{◌≡◌};
ghost use Rattle.write_history.specs.Passes.{MayAppend};
ghost use Rattle.write_history.specs.declared.known.Mark.TheVariants.{Pinned};
ghost use Rattle.history_trials.specs.Seated.{IsFree};

use crate::appends::{copy_of, put_of};
use crate::seats::{Seats, make_seats, pop_pinned, pop_writer, unpin};
use join_types::Write;
use std::process::Abort;
use std::sync::Wait;
use std::test::Fail;
use write_history::{History, Looked, Pass};

/// Appends the write, and expects that it enters at the position.
fn expect_entered<R: Wait + Abort>(
    rt: &R,
    history: &History,
    writer: &mut Pass,
    write: Write,
    position: u64,
)
    requires { MayAppend history.now writer.old }
    ensures { MayAppend history.now writer.new }
{
    let entered = history.append(rt, writer, write);
    assert!(rt;
        matches!(&entered, Ok(at) if *at == position),
        "{entered:?}"
    );
}

/// Looks with a position that is known, or where no memory is found once more: then the pass was not pinned.
fn look_and_pin<R: Wait + Abort>(rt: &R, history: &History, reader: &mut Pass, known: u64) -> Looked
    requires { IsFree history.now reader.old }
    ensures same_history { reader.new.history ≡ history.now }
    ensures pinned { reader.new.mark ≡ Pinned result.length }
{
    match history.look_joins(rt, reader, known) {
        Ok(looked) => looked,
        Err(_) => history.look_joins(rt, reader, known).expect(rt, "memory"),
    }
}

/// Looks with a position that is known, and takes the pin away.
fn look_for_joins<R: Wait + Abort>(
    rt: &R,
    history: &History,
    reader: &mut Pass,
    known: u64,
) -> Looked
    requires { IsFree history.now reader.old }
    ensures { IsFree history.now reader.new }
{
    let looked = look_and_pin(rt, history, reader, known);
    unpin(rt, history, reader, looked.length);
    looked
}

/// Expects that a look with the position that is known finds so many entries, and is given no joins.
fn expect_known<R: Wait + Abort>(
    rt: &R,
    history: &History,
    reader: &mut Pass,
    known: u64,
    entries: u64,
)
    requires { IsFree history.now reader.old }
    ensures { IsFree history.now reader.new }
{
    let looked = look_for_joins(rt, history, reader, known);
    assert!(rt; looked.length == entries);
    assert!(rt; looked.joins.is_none(), "{looked:?}");
}

/// Expects that a look with the position that is known finds so many entries, and is given so many joins, the last of them
/// declared at a position.
fn expect_joins<R: Wait + Abort>(
    rt: &R,
    history: &History,
    reader: &mut Pass,
    known: u64,
    entries: u64,
    count: usize,
    last: u64,
)
    requires { IsFree history.now reader.old }
    ensures { IsFree history.now reader.new }
{
    let looked = look_for_joins(rt, history, reader, known);
    assert!(rt; looked.length == entries);
    let joins = looked.joins.expect(rt, "joins");
    assert!(rt;
        joins.len() == count && joins.changed_at() == last,
        "{joins:?}"
    );
}

#[test]
fn a_look_gives_the_joins_that_are_not_known(rt: HostRuntime) -> Result<(), Fail> {
    let alloc = rt.alloc();
    let Seats {
        history,
        mut writers,
        mut pinned,
        ..
    } = make_seats(alloc, 1, 1, 0, 0)?;
    let mut reader = pop_pinned(&rt, &history, &mut pinned);
    let mut writer = pop_writer(&rt, &history, &mut writers);
    expect_known(&rt, &history, &mut reader, 0, 0);
    let join = copy_of(&rt, alloc, "b")?;
    expect_entered(&rt, &history, &mut writer, Write::Declare(join), 1);
    expect_joins(&rt, &history, &mut reader, 0, 1, 1, 1);
    expect_known(&rt, &history, &mut reader, 1, 1);
    let join = copy_of(&rt, alloc, "c")?;
    expect_entered(&rt, &history, &mut writer, Write::Declare(join), 2);
    expect_joins(&rt, &history, &mut reader, 1, 2, 2, 2);
    let put = put_of(&rt, alloc, "a|x", 7);
    expect_entered(&rt, &history, &mut writer, put, 3);
    expect_known(&rt, &history, &mut reader, 2, 3);
    expect_joins(&rt, &history, &mut reader, 3, 3, 2, 2);
    Ok(())
}

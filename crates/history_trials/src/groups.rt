// What changes in ranges inside one group of a table's keys, and in other ranges beside them. Worked rows, with ample memory.
ghost use Rattle.std.specs.Prelude.{◌≡◌};

use crate::versions::{advance, expect_changed, put, removal, trim};
use base_versions::BaseVersions;
use join_types::Entry;
use std::alloc::Global;
use std::process::Abort;
use std::test::Fail;

/// Writes in order: keys that are put, and keys that are removed.
fn writes(rt: &impl Abort, alloc: Global, rows: &[(&str, bool)]) -> Result<Vec<Entry>, Fail> {
    let mut entries = Vec::new(alloc);
    for (text, is_put) in rows {
        let entry = if *is_put {
            put(rt, alloc, text, "1")
        } else {
            removal(rt, alloc, text)
        };
        entries.push(entry)?;
    }
    Ok(entries)
}

/// The keys that change in some ranges after so many entries, up to so many, are those that the rows want. It asks only from a
/// position on.
fn expect_rows(
    rt: &impl Abort,
    alloc: Global,
    base: &BaseVersions,
    from: u64,
    rows: &[(u64, u64, &str, &str, &str)],
) -> Result<(), Fail>
    requires one { base.now.shards ≡ 1 }
    requires first { base.now.shard ≡ 0 }
{
    for (q, p, low, high, wanted) in rows {
        if from <= *q {
            expect_changed(rt, alloc, base, (*q, *p, *low, *high), wanted)?;
        }
    }
    Ok(())
}

/// Writes of one table, whose keys have two segments or three. One of them has an empty second segment.
const WRITES: [(&str, bool); 12] = [
    ("t|a|x", true),
    ("t|ab|x", true),
    ("t|a", true),
    ("t|a|y", true),
    ("t||e", true),
    ("t|a|x", false),
    ("t|a}|x", true),
    ("t|b|z", true),
    ("t|a|y", true),
    ("t|b", false),
    ("t|a|z", true),
    ("t|a|x", true),
];

/// What changes in ranges of the table: inside a group, at one key, across groups, and where the bounds do not tell that all lies
/// inside one.
const CHANGES: [(u64, u64, &str, &str, &str); 20] = [
    (0, 12, "t|a|", "t|a}", "t|a|x t|a|y t|a|z "),
    (4, 12, "t|a|", "t|a}", "t|a|x t|a|y t|a|z "),
    (6, 10, "t|a|", "t|a}", "t|a|y "),
    (9, 10, "t|a|", "t|a}", ""),
    (11, 12, "t|a|", "t|a}", "t|a|x "),
    (0, 12, "t|a|x", "t|a|y", "t|a|x "),
    (4, 11, "t|a|y", "t|a}", "t|a|y t|a|z "),
    (0, 12, "t|a|x", "t|a|x\0", "t|a|x "),
    (6, 11, "t|a|x", "t|a|x\0", ""),
    (0, 12, "t|a|", "t|a~", "t|a|x t|a|y t|a|z t|a}|x "),
    (0, 12, "t|ab|", "t|a|", "t|ab|x "),
    (0, 12, "t|ab|", "t|ab}", "t|ab|x "),
    (0, 12, "t||", "t|}", "t||e "),
    (5, 12, "t||", "t|}", ""),
    (0, 12, "t|a", "t|a\0", "t|a "),
    (9, 12, "t|b", "t|b|", "t|b "),
    (7, 12, "t|b|", "t|b}", "t|b|z "),
    (0, 12, "t|c|", "t|c}", ""),
    (
        0,
        12,
        "t|",
        "t}",
        "t|a t|ab|x t|a|x t|a|y t|a|z t|a}|x t|b t|b|z t||e ",
    ),
    (8, 11, "t|", "t}", "t|a|y t|a|z t|b "),
];

#[test]
fn changes_in_ranges_inside_groups_and_beside_them(rt: HostRuntime) -> Result<(), Fail> {
    let alloc = rt.alloc();
    let entries = writes(&rt, alloc, &WRITES)?;
    for to in 0..=12 {
        let mut base = BaseVersions::new(alloc, 0, 1);
        advance(&rt, &mut base, &entries)?;
        trim(&rt, &mut base, to);
        expect_rows(&rt, alloc, &base, to, &CHANGES)?;
    }
    Ok(())
}

/// What changes where the writes enter once more.
const LATER_CHANGES: [(u64, u64, &str, &str, &str); 9] = [
    (12, 12, "t|a|", "t|a}", ""),
    (12, 13, "t|a|", "t|a}", "t|a|x "),
    (12, 24, "t|a|", "t|a}", "t|a|x t|a|y t|a|z "),
    (13, 24, "t|ab|", "t|ab}", "t|ab|x "),
    (14, 15, "t|", "t}", "t|a "),
    (16, 18, "t|a|", "t|a}", "t|a|x "),
    (18, 24, "t|a|", "t|a}", "t|a|x t|a|y t|a|z "),
    (18, 23, "t|a|", "t|a}", "t|a|y t|a|z "),
    (18, 24, "t||", "t|}", ""),
];

#[test]
fn groups_that_were_trimmed_away_are_written_again(rt: HostRuntime) -> Result<(), Fail> {
    let alloc = rt.alloc();
    let entries = writes(&rt, alloc, &WRITES)?;
    let mut base = BaseVersions::new(alloc, 0, 1);
    advance(&rt, &mut base, &entries)?;
    trim(&rt, &mut base, 12);
    advance(&rt, &mut base, &entries)?;
    expect_rows(&rt, alloc, &base, 12, &LATER_CHANGES)?;
    trim(&rt, &mut base, 18);
    expect_rows(&rt, alloc, &base, 18, &LATER_CHANGES)
}

/// Twenty keys of one group.
const TWENTY: [(&str, bool); 20] = [
    ("t|d|a", true),
    ("t|d|b", true),
    ("t|d|c", true),
    ("t|d|d", true),
    ("t|d|e", true),
    ("t|d|f", true),
    ("t|d|g", true),
    ("t|d|h", true),
    ("t|d|i", true),
    ("t|d|j", true),
    ("t|d|k", true),
    ("t|d|l", true),
    ("t|d|m", true),
    ("t|d|n", true),
    ("t|d|o", true),
    ("t|d|p", true),
    ("t|d|q", true),
    ("t|d|r", true),
    ("t|d|s", true),
    ("t|d|t", true),
];

/// The last sixteen changes of them, and the last seventeen: of more keys than changes, and of two keys.
const FEW_OR_MORE: [(u64, u64, &str, &str, &str); 4] = [
    (
        4,
        20,
        "t|d|",
        "t|d}",
        "t|d|e t|d|f t|d|g t|d|h t|d|i t|d|j t|d|k t|d|l t|d|m t|d|n t|d|o t|d|p t|d|q t|d|r t|d|s t|d|t ",
    ),
    (
        3,
        20,
        "t|d|",
        "t|d}",
        "t|d|d t|d|e t|d|f t|d|g t|d|h t|d|i t|d|j t|d|k t|d|l t|d|m t|d|n t|d|o t|d|p t|d|q t|d|r t|d|s t|d|t ",
    ),
    (4, 20, "t|d|s", "t|d}", "t|d|s t|d|t "),
    (3, 20, "t|d|s", "t|d}", "t|d|s t|d|t "),
];

#[test]
fn sixteen_changes_and_seventeen(rt: HostRuntime) -> Result<(), Fail> {
    let alloc = rt.alloc();
    let entries = writes(&rt, alloc, &TWENTY)?;
    let mut base = BaseVersions::new(alloc, 0, 1);
    advance(&rt, &mut base, &entries)?;
    expect_rows(&rt, alloc, &base, 0, &FEW_OR_MORE)
}

// Sets of kept ranges of one table: a range is covered by parts of kept ones and by the gaps between them.
ghost use Rattle.std.specs.Prelude.{◌≡◌, codes, true};
ghost use Rattle.range_set.specs.Held.{are_of_table};

use crate::readers::read_bounds;
use key_space::Range;
use range_set::{Piece, RangeSet};
use std::alloc::Global;
use test_rows::{Answer, Fields};

/// Kept ranges of the table `t`.
#[derive(Drop)]
struct Kept {
    set: RangeSet<u32>,
    ghost of_table: { are_of_table set (codes "t") ≡ true },
}

/// Answers `set;CALL;..`, calls on one set in turn.
pub fn answer(alloc: Global, fields: Fields<'_>, out: &mut Answer) -> Option<()> {
    let mut kept = Kept {
        set: RangeSet::new(alloc),
    };
    for call in fields.rest().split(';') {
        answer_call(alloc, &mut kept, call, out)?;
    }
    Some(())
}

/// Answers one call.
fn answer_call(alloc: Global, kept: &mut Kept, call: &str, out: &mut Answer) -> Option<()> {
    let mut words = Fields::words(call);
    let name = words.next();
    let range = read_bounds(alloc, words.next())?;
    match name {
        "keep" => kept.keep(&range, words.id()),
        "cover" => kept.show_pieces(&range, out),
        "remove" => {
            kept.remove(&range, out);
            Some(())
        }
        _ => None,
    }
}

impl Kept {
    /// Does `keep LOW..HIGH ITEM`: keeps a range of the table `t` with an item, where all of it is one gap. Nothing else is read.
    fn keep(&mut self, range: &Range, item: u32) -> Option<()> {
        let mut pieces = self.set.cover(range).ok()?;
        if pieces.len() != 1 {
            return None;
        }
        match pieces.pop() {
            Some(Piece::Gap(gap)) => {
                if gap.table() != "t" {
                    return None;
                }
                self.set.insert(gap, item).ok()
            }
            _ => None,
        }
    }

    /// Answers `remove LOW..HIGH`: takes out the range with these bounds, and shows its item.
    fn remove(&mut self, range: &Range, out: &mut Answer) {
        match self.set.remove(range) {
            Some(item) => out.number(u64::from(item)),
            None => out.word("none"),
        }
    }

    /// Answers `cover LOW..HIGH`: the pieces in brackets, each by its bounds, and a kept one with its item.
    fn show_pieces(&self, range: &Range, out: &mut Answer) -> Option<()> {
        out.word("[");
        for piece in self.set.cover(range).ok()? {
            match piece {
                Piece::Kept(part, item) => {
                    out.bounds(part.lo(), part.hi());
                    out.more("=");
                    out.more_number(u64::from(item));
                }
                Piece::Gap(gap) => out.bounds(gap.lo(), gap.hi()),
            }
        }
        out.word("]");
        Some(())
    }
}

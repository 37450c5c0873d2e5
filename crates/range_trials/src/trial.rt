// A kept range over a told history, of which each call is made where it may be.
ghost use Rattle.std.specs.Prelude.{◌≡◌, ◌≤◌, IfOk};
ghost use Rattle.semantics.specs.Verdicts.{AllEntered};
ghost use Rattle.join_set.specs.Summaries.{StandsFor};
ghost use Rattle.range_trials.specs.Tried.{IsTried};

use crate::refusing::RefusingReader;
use crate::telling::Told;
use join_eval::{KeepFault, NeedBound, TooMany};
use join_types::Pair;
use key_space::Range;
use layering::standing_laws::same_joins_since;
use list_reader::ListReader;
use out_of_memory::OutOfMemory;
use range_state::RangeState;
use std::alloc::Global;
use std::convert::Infallible;
use std::process::Abort;
use std::sync::ledger::Ledger;
use std::test::Fail;
use steps::Steps;

/// A kept range over the reader of a history.
#[derive(Drop)]
pub struct Trial {
    /// The kept range.
    pub state: RangeState,
    /// The reader.
    pub reader: RefusingReader,
    /// Where the last join was declared or dropped: from there on the same joins stand.
    pub changed: u64,
    /// How many entries were told.
    pub length: u64,
    /// How many needs may be kept, where that was said.
    pub most: Option<u64>,
}

/// A trial of the last join of the history over the range, with nothing kept yet.
pub fn start(rt: &impl Abort, alloc: Global, told: Told, range: &Range) -> Result<Trial, Fail>
    requires entered { AllEntered told.entries.items }
    requires stands { StandsFor told.standing told.entries.items }
    ensures { IfOk result (λ trial. IsTried trial.reader.inner trial.changed trial.length trial.state) }
{
    let Told { entries, standing } = told;
    let joins = standing.joins();
    if joins.is_empty() {
        panic!(rt; "no join");
    }
    let last = joins.len() - 1;
    same_joins_since();
    let join = joins.join(last).copy(alloc)?;
    Ok(Trial {
        state: RangeState::new(alloc, join, joins.rank(last), range.copy()?),
        reader: RefusingReader {
            inner: ListReader::new(alloc, entries),
            left: 0,
            counted: 0,
        },
        changed: joins.changed_at(),
        length: standing.length(),
        most: None,
    })
}

impl Trial {
    /// How many needs may be kept: more are a fault.
    fn bound(&self) -> NeedBound<TooMany, Infallible> {
        match self.most {
            None => NeedBound::Every,
            Some(most) => NeedBound::EndsPast(most, TooMany),
        }
    }

    /// Fills the range after p entries.
    pub fn fill<L: Ledger>(
        &mut self,
        rt: &impl Abort,
        p: u64,
        steps: &mut Steps<L>,
    ) -> Result<(), KeepFault<TooMany>>
        requires { IsTried self.old.reader.inner self.old.changed self.old.length self.old.state }
        ensures { IsTried self.new.reader.inner self.new.changed self.new.length self.new.state }
    {
        if p < self.changed || self.length < p {
            panic!(rt; "the join does not stand there");
        }
        if self.state.position().is_some() {
            panic!(rt; "something is kept already");
        }
        let bound = self.bound();
        self.state.fill(p, bound, &mut self.reader, steps)
    }

    /// Fills the range after p entries, where that takes no more needs than may be kept, and gives its rows in a range where it
    /// takes more.
    pub fn fill_up_to<L: Ledger>(
        &mut self,
        rt: &impl Abort,
        p: u64,
        range: &Range,
        steps: &mut Steps<L>,
    ) -> Result<Option<Vec<Pair>>, OutOfMemory>
        requires { IsTried self.old.reader.inner self.old.changed self.old.length self.old.state }
        ensures { IsTried self.new.reader.inner self.new.changed self.new.length self.new.state }
    {
        if p < self.changed || self.length < p {
            panic!(rt; "the join does not stand there");
        }
        if self.state.position().is_some() {
            panic!(rt; "something is kept already");
        }
        let Some(most) = self.most else {
            panic!(rt; "no bound was said");
        };
        let loose = self.state.fill_up_to(p, most, &mut self.reader, steps)?;
        match loose {
            None => Ok(None),
            Some(rows) => Ok(Some(rows.within(range)?)),
        }
    }

    /// Advances to where p entries stand.
    pub fn advance<L: Ledger>(
        &mut self,
        rt: &impl Abort,
        p: u64,
        steps: &mut Steps<L>,
    ) -> Result<(), KeepFault<TooMany>>
        requires { IsTried self.old.reader.inner self.old.changed self.old.length self.old.state }
        ensures { IsTried self.new.reader.inner self.new.changed self.new.length self.new.state }
    {
        if p < self.changed || self.length < p {
            panic!(rt; "the join does not stand there");
        }
        let Some(position) = self.state.position() else {
            panic!(rt; "nothing is kept");
        };
        if p < position {
            panic!(rt; "it stands later");
        }
        let bound = self.bound();
        self.state.advance(p, bound, &mut self.reader, steps)
    }

    /// Mends where something pending meets the range.
    pub fn mend<L: Ledger>(
        &mut self,
        rt: &impl Abort,
        range: &Range,
        steps: &mut Steps<L>,
    ) -> Result<(), KeepFault<TooMany>>
        requires { IsTried self.old.reader.inner self.old.changed self.old.length self.old.state }
        ensures { IsTried self.new.reader.inner self.new.changed self.new.length self.new.state }
    {
        if self.state.position().is_none() {
            panic!(rt; "nothing is kept");
        }
        let bound = self.bound();
        self.state.mend(range, bound, &mut self.reader, steps)
    }

    /// The rows in the range, where nothing pending meets it.
    pub fn read<L: Ledger>(
        &self,
        rt: &impl Abort,
        range: &Range,
        steps: &mut Steps<L>,
    ) -> Result<Vec<Pair>, OutOfMemory> {
        if self.state.position().is_none() || self.state.pending_meets(range) {
            panic!(rt; "it is not ready");
        }
        self.state.read(range, steps)
    }
}

// Scripts of calls of a kept range.
ghost use Rattle.range_trials.specs.Tried.{IsTried};

use crate::trial::Trial;
use join_eval::{Changed, KeepFault, TooMany};
use join_types::Pair;
use key_space::Range;
use std::alloc::Global;
use std::process::Abort;
use std::sync::ledger::Ledger;
use std::test::Fail;
use steps::Steps;

/// The pairs, as `key=value` with spaces between them.
pub fn show_pairs(text: &mut String, pairs: &[Pair]) -> Result<(), Fail> {
    for pair in pairs {
        text.push(' ')?;
        text.push_str(pair.key.text())?;
        text.push('=')?;
        text.push_str(pair.value.text())?;
    }
    Ok(())
}

/// What changed: the keys with spaces between them, or a star.
pub fn show_changed(text: &mut String, changed: &Changed) -> Result<(), Fail> {
    match changed {
        Changed::All => text.push_str(" *")?,
        Changed::Keys(keys) => for key in keys.iter() {
            text.push(' ')?;
            text.push_str(key.text())?;
        },
    }
    Ok(())
}

/// Shows why nothing is kept: there were too many needs, or memory ran out.
fn show_fault(text: &mut String, done: Result<(), KeepFault<TooMany>>) -> Result<(), Fail> {
    match done {
        Ok(()) => {}
        Err(KeepFault::TooWide(_many)) => text.push_str(" wide;")?,
        Err(KeepFault::OutOfMemory(_memory)) => text.push_str(" memory;")?,
    }
    Ok(())
}

/// Makes the call that the words say; `mend`, `read` and `since` over the range that is asked for. What `read`, `since` and
/// `count` answer is shown with a semicolon behind it, and of the others only why nothing is kept. `again` fills where nothing is
/// kept, and `refuse` and a number say at which call from now on the reader finds no memory. `most` and a number say how many needs
/// may be kept from now on; `bounded` fills then, and shows the rows that it could not keep.
pub fn call<L: Ledger>(
    rt: &impl Abort,
    alloc: Global,
    trial: &mut Trial,
    range: &Range,
    words: &str,
    steps: &mut Steps<L>,
    text: &mut String,
) -> Result<(), Fail>
    requires { IsTried trial.old.reader.inner trial.old.changed trial.old.length trial.old.state }
    ensures { IsTried trial.new.reader.inner trial.new.changed trial.new.length trial.new.state }
{
    let (name, number) = words.split_once(' ').unwrap_or((words, "0"));
    let p = number.parse::<u64>().expect(rt, "a position");
    match name {
        "fill" => {
            let done = trial.fill(rt, p, steps);
            show_fault(text, done)?;
        }
        "advance" => {
            let done = trial.advance(rt, p, steps);
            show_fault(text, done)?;
        }
        "mend" => {
            let done = trial.mend(rt, range, steps);
            show_fault(text, done)?;
        }
        "again" => if trial.state.position().is_none() {
            trial.fill(rt, p, steps)?;
        },
        "most" => trial.most = Some(p),
        "bounded" => if let Some(pairs) = trial.fill_up_to(rt, p, range, steps)? {
            show_pairs(text, pairs.as_slice())?;
            text.push(';')?;
        },
        "refuse" => trial.reader.left = p,
        "count" => {
            text.push_str(format!(in alloc; " {};", trial.reader.counted)?.as_str())?;
            trial.reader.counted = 0;
        }
        "forget" => trial.state.forget(),
        "read" => {
            let pairs = trial.read(rt, range, steps)?;
            show_pairs(text, pairs.as_slice())?;
            text.push(';')?;
        }
        "since" => {
            let changed = trial.state.changed_since(p, range)?;
            show_changed(text, &changed)?;
            text.push(';')?;
        }
        _ => panic!(rt; "no such call"),
    }
    Ok(())
}

// The load: its acts, as another program makes them of the same number, steps and users, and its joins.
use crate::answer::Answer;
use crate::words::tell_write;
use join_lang::print;
use load_gen::{Act, load_joins, plan};
use std::alloc::Global;
use test_rows::Fields;

/// The most users and the most steps that a load may have.
const MOST_USERS: u32 = 9_999;

const MOST_STEPS: u32 = 1_000_000;

/// Tells an act: the poster that it names, and what is done.
fn tell_act(alloc: Global, act: &Act, answer: &mut Answer) -> Option<()> {
    match act {
        Act::Change { poster, write } => {
            answer.tell(poster);
            tell_write(alloc, write, answer)
        }
        Act::Look { poster, user } => {
            answer.tell(poster);
            answer.say("look");
            answer.tell(user);
            Some(())
        }
    }
}

/// Tells the acts of a load, of which a row gives the number, the steps and the users, and how many they are.
fn tell_acts(alloc: Global, fields: &mut Fields<'_>, answer: &mut Answer) -> Option<()> {
    let number = fields.number();
    let steps = u32::try_from(fields.number()).ok()?;
    let users = u32::try_from(fields.number()).ok()?;
    if steps > MOST_STEPS || users == 0 || users > MOST_USERS {
        return None;
    }
    let acts = plan(alloc, number, steps, users).ok()?;
    answer.tell(&acts.len());
    for act in acts {
        answer.say("/");
        tell_act(alloc, &act, answer)?;
    }
    Some(())
}

/// Tells the joins of the load.
fn tell_joins(alloc: Global, answer: &mut Answer) -> Option<()> {
    for join in load_joins(alloc).ok()? {
        let text = print(alloc, &join).ok()?;
        answer.say(text.as_str());
        answer.say("/");
    }
    Some(())
}

/// Runs a row of this kind.
pub fn run(alloc: Global, kind: &str, fields: &mut Fields<'_>, answer: &mut Answer) -> Option<()> {
    match kind {
        "acts" => tell_acts(alloc, fields, answer),
        "joins" => tell_joins(alloc, answer),
        _ => None,
    }
}

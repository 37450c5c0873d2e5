// Worked runs and generated histories, played on kept ranges and held to plain evaluation: tests alone, with nothing for
// other crates.
//
// Besides, ranges of one key and what they cost, one worked advance by its parts, cells that are given, used and evicted, and notes
// that are pushed out.
//
// A test tells a history by lines, keeps the range of its last join's output, and plays a script of calls on it: fill, also with
// so many needs at most, advance, mend, read, what changed since a position, forget, and memory that runs out at a call of the
// reader. What the calls answer is held against worked answers, and over generated histories against the state that is evaluated
// afresh by `join_model`.
#![tactic(auto)]

#[cfg(test)]
mod advances;
#[cfg(test)]
mod bounded;
#[cfg(test)]
mod cells;
#[cfg(test)]
mod generated;
#[cfg(test)]
mod notes;
#[cfg(test)]
mod played;
#[cfg(test)]
mod refusing;
#[cfg(test)]
mod script;
#[cfg(test)]
mod single_keys;
#[cfg(test)]
mod telling;
#[cfg(test)]
mod trial;

// The public calls of `pq_io`, tried: tests alone, with nothing for other crates.
//
// What no clause says is tried here: that the calls succeed, where they fail, and what the adapters over readers, writers, files
// and sockets make of the system's answers.
//
// Dangerous here: a test writes the files `joins`, `most` and `more` where it runs, in the place of any of these names, and
// removes them.
#![tactic(auto)]

#[cfg(test)]
mod doors;
#[cfg(test)]
mod holding;
#[cfg(test)]
mod links;
#[cfg(test)]
mod network;
#[cfg(test)]
mod shelves;
#[cfg(test)]
mod streams;

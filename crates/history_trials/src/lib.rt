// What keeps the writes: the base pairs at every position, the history that threads share, the parts of the base pairs and the
// cells that they share, and what is let go of them. Tests alone, with nothing for other crates: most of them need threads, or
// values whose types name a history.
//
// Dangerous here: three tests of 200,000 appends each, by one, two and four threads, stand here for `bench/appends.sh`, and run
// with all others. What is let go is seen only past 65,536 entries, so those tests write as many too.
//
// Trials of queues and bells between threads: that whoever waits is woken, and that each item is taken once. What the states
// behind their locks answer is tried as rows, in `key_trials`. And counters of steps, whose types name what they count on.
//
// Dangerous here: a call that is not woken waits for ever, and the test with it.
#![tactic(auto)]

#[cfg(test)]
mod appends;
#[cfg(test)]
mod bells;
#[cfg(test)]
mod cells;
#[cfg(test)]
mod closing;
#[cfg(test)]
mod counts;
#[cfg(test)]
mod groups;
#[cfg(test)]
mod handed;
#[cfg(test)]
mod items;
#[cfg(test)]
mod looks;
#[cfg(test)]
mod pins;
#[cfg(test)]
mod seats;
#[cfg(test)]
mod settling;
#[cfg(test)]
mod shards;
#[cfg(test)]
mod tallies;
#[cfg(test)]
mod versions;

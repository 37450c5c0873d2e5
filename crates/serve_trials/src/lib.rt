// Links that `serve` answers, sources and sinks that fail at each place, loads, and workers: tests alone, with nothing for other
// crates. What can be told as rows stands in `command_trials`; here is what needs threads, loops over failures or links of its own.
//
// Dangerous here: a thread that waits for another looks up to 10,000,000 times, and keeps a processor busy meanwhile. On a machine
// that is too slow it gives up, and the test fails.
#![tactic(auto)]

#[cfg(test)]
mod copying;
#[cfg(test)]
mod faults;
#[cfg(test)]
mod held;
#[cfg(test)]
mod linked;
#[cfg(test)]
mod loads;
#[cfg(test)]
mod returned;
#[cfg(test)]
mod staffed;

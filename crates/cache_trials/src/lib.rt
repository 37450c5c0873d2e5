// Clients of a cache, held to worked answers and to plain evaluation, and what a cache keeps, evicts and reads again, seen by gates
// that count and by the steps of reads: tests alone, with nothing for other crates.
//
// A client that is alone, of a cache with many cells or few, is asked what is drawn, and answers each request byte for byte as
// plain evaluation does. Among what is drawn are declarations and drops of joins, scans at earlier positions and change feeds.
//
// Small histories are drawn by the thousands. Between the writes, ranges are looked at as they stood at a drawn position, with what
// changed since and as they stand: each is what plain evaluation gives at both positions, and setting and taking out what changed
// turns the first into the last.
//
// Four clients ask what is drawn, each on a thread of its own, of a cache that has few cells and may keep few rows. Afterwards
// they meet and read all tables. The writes that were acknowledged, each at its position, are the history; each reply has to be
// what evaluating the joins afresh gives after the entries that it names, and no client is answered at a position below one
// that it was told before, but where it names an earlier one. What is held against the replies knows nothing of what a cache keeps.
//
// What is let go of old entries is seen only past 65,536 of them. So some tests write as many and more: four clients that are asked
// as before, a client that is held in a read meanwhile, and reads of cells that stand just near enough or too far behind.
#![tactic(auto)]

#[cfg(test)]
mod alone;
#[cfg(test)]
mod asking;
#[cfg(test)]
mod checking;
#[cfg(test)]
mod clients;
#[cfg(test)]
mod course;
#[cfg(test)]
mod earlier;
#[cfg(test)]
mod far_rows;
#[cfg(test)]
mod fed_rows;
#[cfg(test)]
mod feed_cost;
#[cfg(test)]
mod feeds;
#[cfg(test)]
mod flips;
#[cfg(test)]
mod held;
#[cfg(test)]
mod kept;
#[cfg(test)]
mod kept_rows;
#[cfg(test)]
mod limited_rows;
#[cfg(test)]
mod playing;
#[cfg(test)]
mod scan_cost;
#[cfg(test)]
mod scanning;
#[cfg(test)]
mod seated;
#[cfg(test)]
mod threads;
#[cfg(test)]
mod together;
#[cfg(test)]
mod wide_rows;

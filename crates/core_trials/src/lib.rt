// Worked and generated lists of events, answered by the core and held to plain evaluation: tests alone, with nothing for
// other crates.
//
// A test writes events as lines: writes, scans that are answered in pieces, and cells that are advanced, mended and evicted in
// between. What a core answers with few cells and with many, of which few rows may be kept or many, is held against worked
// answers, and over generated events against a core that keeps nothing: `plain_history`, which evaluates the state afresh.
#![tactic(auto)]

#[cfg(test)]
mod abandoned;
#[cfg(test)]
mod generated;
#[cfg(test)]
mod letting_go;
#[cfg(test)]
mod limited;
#[cfg(test)]
mod many_kept;
#[cfg(test)]
mod plain;
#[cfg(test)]
mod script;
#[cfg(test)]
mod showing;
#[cfg(test)]
mod worked;
#[cfg(test)]
mod worked_rows;

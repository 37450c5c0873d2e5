// What stands on the wire: requests, replies, joins in text, and what one client or many are told.
//
// `specs/` has the definitions, in the order of `specs/Lib.antt`. The modules below have no code: each public function has an
// empty body, and its contract is a law. The crates above cite the lemmas of `proofs/`: `Cuts` (bytes into lines), `Runs`,
// `StarvedLines` and `RunSteps` (replies to lines, one after another), `WrittenLines` (which replies a written text has),
// `Telling` and `TellingSteps` (what a client is told), `Alone` and `AloneRuns` (one client alone), `ReplyTexts` and
// `CompactTexts` (texts and values).
#![tactic(auto)]

pub mod alone_laws;
pub mod reply_laws;
pub mod run_laws;

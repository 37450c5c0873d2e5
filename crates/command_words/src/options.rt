// The options that each kind of command takes, and what they say.
ghost use Rattle.std.specs.Prelude.{◌≡◌, ◌≤◌, IfSome, option_map};
ghost use Rattle.std.specs.List.{list_any};
ghost use Rattle.semantics.specs.Texts.{same};
ghost use Rattle.command_words.specs.Arguments.{named, number_of, is_unnamed, given_once, words as positional_words};
ghost use Rattle.command_words.specs.Commands.{is_taken, are_taken, cells_of, rows_of, room_of, workers_of, links_of, seed_of, steps_of, users_of, joins_of};
ghost use Rattle.command_words.specs.Plain.{plain_argument, plain_room};
ghost use Rattle.command_words.specs.Left.{left, options_of};

use crate::arguments::{Argument, Wanted, Words, given_once};
use crate::command::Room;
use crate::numbers::{is_name, number_within};

/// The kinds of commands.
#[derive(Clone, Copy, Debug)]
pub enum Kind {
    /// `run`
    Run,
    /// `serve`
    Serve,
    /// `check`
    Check,
    /// `replay`
    Replay,
    /// `load`
    Load,
}

impl Kind {
    /// Whether a command of this kind takes the option with the name.
    fn takes(self, name: &str) -> bool
        ensures { result ≡ list_any (same name.now) (options_of self) }
    {
        match self {
            Kind::Run | Kind::Replay => name == "cells" || name == "rows",
            Kind::Serve => {
                name == "cells"
                    || name == "rows"
                    || name == "workers"
                    || name == "links"
                    || name == "joins"
            }
            Kind::Check => false,
            Kind::Load => {
                name == "cells"
                    || name == "rows"
                    || name == "workers"
                    || name == "number"
                    || name == "steps"
                    || name == "users"
            }
        }
    }

    /// Whether the argument may stand behind the word of such a command: an option that it takes, with its value, or a
    /// positional word.
    fn takes_argument(self, argument: Argument<'_>) -> bool
        ensures { result ≡ is_taken (options_of self) (plain_argument argument.entry) }
    {
        match argument {
            Argument::Valued { name, .. } => self.takes(name),
            Argument::Lone(_) => false,
            Argument::Positional(_) => true,
        }
    }

    /// Whether each argument of the words may. Linear in the words.
    pub fn takes_all(self, words: Words<'_>) -> bool
        ensures { result ≡ are_taken (options_of self) (left words.entry) }
    {
        let mut rest = words;
        while let Some((argument, others)) = rest.split() {
            if !self.takes_argument(argument) {
                return false;
            }
            rest = others;
        }
        true
    }
}

/// The one positional word, where it is a name. Linear in the words.
pub fn named(words: Words<'_>) -> Option<&str>
    ensures { option_map (λ name. name.now) result ≡ named (left words.entry) }
{
    match given_once(words, Wanted::Positional) {
        Some(Some(name)) if is_name(name) => Some(name),
        _ => None,
    }
}

/// Whether no word is positional. Linear in the words.
pub fn is_unnamed(words: Words<'_>) -> bool
    ensures { result ≡ is_unnamed (given_once positional_words (left words.entry)) }
{
    matches!(given_once(words, Wanted::Positional), Some(None))
}

/// The number that the option with the name says, within two limits, or the default where it does not stand. Linear in the
/// words.
fn number_of(words: Words<'_>, name: &str, least: u64, most: u64, default: u64) -> Option<u64>
    requires { default ≤ most }
    ensures number { result ≡ number_of name.now least most default (left words.entry) }
    ensures within { IfSome result (λ number. number ≤ most) }
{
    match given_once(words, Wanted::Values(name)) {
        None => None,
        Some(None) => Some(default),
        Some(Some(text)) => number_within(text, least, most),
    }
}

/// How much is kept. Linear in the words.
pub fn room_of(words: Words<'_>) -> Option<Room>
    ensures { option_map plain_room result ≡ room_of (left words.entry) }
{
    let cells = number_of(words, "cells", 1, 65_536, 1_024)?;
    let rows = number_of(words, "rows", 1, 1_000_000_000, 100_000)?;
    Some(Room {
        cells: cells as u32,
        rows,
    })
}

/// How many workers there are. Linear in the words.
pub fn workers_of(words: Words<'_>, default: u32) -> Option<u32>
    requires { default ≤ 64 }
    ensures { result ≡ workers_of default (left words.entry) }
{
    let workers = number_of(words, "workers", 1, 64, u64::from(default))?;
    Some(workers as u32)
}

/// After how many links the doors close. Linear in the words.
pub fn links_of(words: Words<'_>) -> Option<u64>
    ensures { result ≡ links_of (left words.entry) }
{
    number_of(words, "links", 0, 1_000_000, 0)
}

/// The number from which acts are drawn. Linear in the words.
pub fn seed_of(words: Words<'_>) -> Option<u64>
    ensures { result ≡ seed_of (left words.entry) }
{
    number_of(words, "number", 0, u64::MAX, 1)
}

/// How many acts there are. Linear in the words.
pub fn steps_of(words: Words<'_>) -> Option<u32>
    ensures { result ≡ steps_of (left words.entry) }
{
    let steps = number_of(words, "steps", 0, 1_000_000, 10_000)?;
    Some(steps as u32)
}

/// How many users there are. Linear in the words.
pub fn users_of(words: Words<'_>) -> Option<u32>
    ensures { result ≡ users_of (left words.entry) }
{
    let users = number_of(words, "users", 1, 9_999, 100)?;
    Some(users as u32)
}

/// The name of the joins file, if one is given; nothing at all where it is none. Linear in the words.
pub fn joins_of(words: Words<'_>) -> Option<Option<&str>>
    ensures { option_map (option_map (λ name. name.now)) result ≡ joins_of (left words.entry) }
{
    match given_once(words, Wanted::Values("joins")) {
        Some(None) => Some(None),
        Some(Some(name)) if is_name(name) => Some(Some(name)),
        _ => None,
    }
}

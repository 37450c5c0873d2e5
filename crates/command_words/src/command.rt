// Commands.
ghost use Rattle.std.specs.Prelude.{◌≡◌, map, option_map, string_bytes};
ghost use Rattle.command_words.specs.Commands.{run_of, serve_of, check_of, replay_of, load_of, command_by, command_of};
ghost use Rattle.command_words.specs.Plain.{plain_command};
ghost use Rattle.command_words.specs.Left.{left};

use crate::arguments::Words;
use crate::options::{
    Kind, is_unnamed, joins_of, links_of, named, room_of, seed_of, steps_of, users_of, workers_of,
};

/// How much is kept.
#[derive(Clone, Copy, Debug, PartialEq, Eq)]
pub struct Room {
    /// In how many cells, 1 to 65,536.
    pub cells: u32,
    /// How many rows, 1 to 1,000,000,000.
    pub rows: u64,
}

/// What the program is asked to do.
#[derive(Clone, Copy, Debug)]
pub enum Command<'a> {
    /// Serve one client over the source and the sink.
    Run(Room),
    /// Serve clients over links.
    Serve {
        /// The address.
        address: &'a str,
        /// How much is kept.
        room: Room,
        /// How many workers serve, 1 to 64.
        workers: u32,
        /// After how many links the doors close, at most 1,000,000; 0 is no end.
        links: u64,
        /// The name of the joins file, if there is one.
        joins: Option<&'a str>,
    },
    /// Say of a joins file what its joins are, or which line is refused first.
    Check(&'a str),
    /// Print the answers to the events of a script.
    Replay {
        /// The script's name.
        file: &'a str,
        /// How much is kept.
        room: Room,
    },
    /// Load the cache with acts that are drawn.
    Load {
        /// How much is kept.
        room: Room,
        /// How many workers act, 1 to 64.
        workers: u32,
        /// The number from which the acts are drawn.
        number: u64,
        /// How many acts there are, at most 1,000,000.
        steps: u32,
        /// How many users there are, 1 to 9,999.
        users: u32,
    },
}

/// `run`, with the arguments of the words.
fn read_run(words: Words<'_>) -> Option<Command<'_>>
    ensures { option_map plain_command result ≡ run_of (left words.entry) }
{
    if !Kind::Run.takes_all(words) || !is_unnamed(words) {
        return None;
    }
    let room = room_of(words)?;
    Some(Command::Run(room))
}

/// `serve`, with the arguments of the words.
fn read_serve(words: Words<'_>) -> Option<Command<'_>>
    ensures { option_map plain_command result ≡ serve_of (left words.entry) }
{
    if !Kind::Serve.takes_all(words) {
        return None;
    }
    let address = named(words)?;
    let room = room_of(words)?;
    let workers = workers_of(words, 4)?;
    let links = links_of(words)?;
    let joins = joins_of(words)?;
    Some(Command::Serve {
        address,
        room,
        workers,
        links,
        joins,
    })
}

/// `check`, with the arguments of the words.
fn read_check(words: Words<'_>) -> Option<Command<'_>>
    ensures { option_map plain_command result ≡ check_of (left words.entry) }
{
    if !Kind::Check.takes_all(words) {
        return None;
    }
    let file = named(words)?;
    Some(Command::Check(file))
}

/// `replay`, with the arguments of the words.
fn read_replay(words: Words<'_>) -> Option<Command<'_>>
    ensures { option_map plain_command result ≡ replay_of (left words.entry) }
{
    if !Kind::Replay.takes_all(words) {
        return None;
    }
    let file = named(words)?;
    let room = room_of(words)?;
    Some(Command::Replay { file, room })
}

/// `load`, with the arguments of the words.
fn read_load(words: Words<'_>) -> Option<Command<'_>>
    ensures { option_map plain_command result ≡ load_of (left words.entry) }
{
    if !Kind::Load.takes_all(words) || !is_unnamed(words) {
        return None;
    }
    let room = room_of(words)?;
    let workers = workers_of(words, 1)?;
    let number = seed_of(words)?;
    let steps = steps_of(words)?;
    let users = users_of(words)?;
    Some(Command::Load {
        room,
        workers,
        number,
        steps,
        users,
    })
}

/// The command of a word and the arguments behind it.
fn read_by<'a>(word: &str, arguments: Words<'a>) -> Option<Command<'a>>
    ensures { option_map plain_command result ≡ command_by word.now (left arguments.entry) }
{
    match word {
        "run" => read_run(arguments),
        "serve" => read_serve(arguments),
        "check" => read_check(arguments),
        "replay" => read_replay(arguments),
        "load" => read_load(arguments),
        _ => None,
    }
}

/// The command that the words after the program's name form: the first is the command's, and options and the positional
/// word follow in any order. Linear in the words.
///
/// None exactly where they form none: where the first word is no command, an option is not one of the command's, has no
/// value or stands twice, a number is not 1 to 20 digits or not within the option's limits, a name does not have 1 to 255
/// bytes or begins with `-`, or the positional words are not as many as the command takes.
#[tactic(auto, unfolding(crate::specs::Commands::command_of))]
pub fn read_command(words: &[String]) -> Option<Command<'_>>
    ensures { option_map plain_command result ≡ command_of (map string_bytes words.now) }
{
    let (word, others) = words.split_first()?;
    let arguments = Words {
        words: others,
        ended: false,
    };
    read_by(word.as_str(), arguments)
}

// The words of the command line, read as a command.
//
// The layers above read the words after the program's name with `read_command`; contracts see a command as the data of
// `specs/Commands.antt`, which is the table of commands.
#![tactic(auto)]

mod arguments;
pub mod command;
pub mod laws;
mod numbers;
mod options;

pub use command::{Command, Room, read_command};

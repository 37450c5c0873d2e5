// How the program is called, for a person to read.
use clap::{Arg, ArgAction, Command};
use out_of_memory::OutOfMemory;
use std::alloc::Global;

/// An option that takes a number, with what stands for it where it is not given.
fn number_option(
    alloc: Global,
    name: &'static str,
    default: &'static str,
    help: &'static str,
) -> Arg<'static> {
    Arg::new(alloc, name)
        .long(name)
        .value_name("NUMBER")
        .default_value(default)
        .help(help)
        .action(ArgAction::Set)
}

/// The positional word that names a file.
fn file_word(alloc: Global, help: &'static str) -> Arg<'static> {
    Arg::new(alloc, "FILE")
        .required(true)
        .help(help)
        .action(ArgAction::Set)
}

/// A command with this name, which has no help of its own.
fn named(alloc: Global, name: &'static str, about: &'static str) -> Command<'static> {
    Command::new(alloc, name)
        .about(about)
        .disable_help_flag(true)
        .disable_help_subcommand(true)
}

/// The command with the options that say how much is kept.
fn with_room(alloc: Global, command: Command<'static>) -> Result<Command<'static>, OutOfMemory> {
    let cells = number_option(
        alloc,
        "cells",
        "1024",
        "How many cells keep ranges: 1 to 65536",
    );
    let rows = number_option(
        alloc,
        "rows",
        "100000",
        "How many rows they keep: 1 to 1000000000",
    );
    Ok(command.arg(cells)?.arg(rows)?)
}

/// `load` with its options.
fn load_command(alloc: Global, name: &'static str) -> Result<Command<'static>, OutOfMemory> {
    let about = "Do acts that are drawn, and write what stands then";
    let workers = number_option(alloc, "workers", "1", "How many workers act: 1 to 64");
    let number = number_option(alloc, "number", "1", "What the acts are drawn from");
    let steps = number_option(
        alloc,
        "steps",
        "10000",
        "How many acts there are: 0 to 1000000",
    );
    let users = number_option(alloc, "users", "100", "How many users there are: 1 to 9999");
    let command = with_room(alloc, named(alloc, name, about))?;
    Ok(command.arg(workers)?.arg(number)?.arg(steps)?.arg(users)?)
}

/// `serve` with its address and its options.
fn serve_command(alloc: Global, name: &'static str) -> Result<Command<'static>, OutOfMemory> {
    let about = "Answer the requests of each connection to an address, one on each line";
    let address = Arg::new(alloc, "ADDRESS")
        .required(true)
        .help("The address, as 127.0.0.1:7000")
        .action(ArgAction::Set);
    let joins = Arg::new(alloc, "joins")
        .long("joins")
        .value_name("FILE")
        .help("The file of joins that are declared first")
        .action(ArgAction::Set);
    let workers = number_option(
        alloc,
        "workers",
        "4",
        "How many connections are served at a time: 1 to 64",
    );
    let links = number_option(
        alloc,
        "links",
        "0",
        "After how many connections it ends: 0 to 1000000, 0 is no end",
    );
    let command = with_room(alloc, named(alloc, name, about).arg(address)?)?;
    Ok(command.arg(workers)?.arg(links)?.arg(joins)?)
}

/// The commands in order, under these names.
fn commands(alloc: Global, names: [&'static str; 5]) -> Result<Vec<Command<'static>>, OutOfMemory> {
    let [run, serve, check, replay, load] = names;
    let about_run = "Answer the requests of standard input, one on each line";
    let about_check = "Say of a file of joins what its joins are, or which line is refused";
    let about_replay = "Answer the events of a script, or say which line is refused";
    let file = file_word(alloc, "The file of joins");
    let script = file_word(alloc, "The script, with an event on each line");
    let run = with_room(alloc, named(alloc, run, about_run))?;
    let serve = serve_command(alloc, serve)?;
    let check = named(alloc, check, about_check).arg(file)?;
    let replay = with_room(alloc, named(alloc, replay, about_replay).arg(script)?)?;
    let load = load_command(alloc, load)?;
    Ok(vec![in alloc; run, serve, check, replay, load]?)
}

/// How the program is called: its commands, and then each of them with its options. It may report that it found no memory.
pub fn usage(alloc: Global) -> Result<String, OutOfMemory> {
    let about = "Pequod, an ordered key-value cache with cache joins";
    let short = commands(alloc, ["run", "serve", "check", "replay", "load"])?;
    let mut program = named(alloc, "pequod", about)
        .subcommand_required(true)
        .subcommands(short)?;
    let mut text = program.render_help()?;
    let long = [
        "pequod run",
        "pequod serve",
        "pequod check",
        "pequod replay",
        "pequod load",
    ];
    for mut command in commands(alloc, long)? {
        text.push('\n')?;
        text.push_str(command.render_help()?.as_str())?;
    }
    Ok(text)
}

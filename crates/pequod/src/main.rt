// Pequod: an ordered key-value cache with cache joins, as a program.
//
// `main` makes the real source, sink, shelf and doors and hands them to the top call, `pequod_commands::pequod`, which does all
// that the program does and carries its contract.
#![tactic(auto)]

ghost use Rattle.std.specs.Prelude.{◌≡◌, ◌⊎◌, IfErr};

use out_of_memory::OutOfMemory;
use pequod_commands::usage::usage;
use pequod_commands::{Status, links, pequod};
use pq_io::{FileShelf, OpenGate, Reading, TcpDoors, Writing};
use std::process::ExitCode;
use std::{env, io};

/// How the program ends where the system gave an error in place of its words.
fn without_words(error: &io::Error) -> Status
    ensures { (result.number ≡ 2) ⊎ (result.number ≡ 6) }
{
    match OutOfMemory::of_system(error) {
        Some(memory) => Status::memory(memory),
        None => Status::WORDS,
    }
}

/// The words after the program's name, or how the program ends without them: words that are not text form no command,
/// and there may be no memory for them.
fn given_words(rt: &HostRuntime) -> Result<Vec<String>, Status>
    ensures { IfErr result (λ status. (status.number ≡ 2) ⊎ (status.number ≡ 6)) }
{
    let given = match env::args(rt) {
        Ok(given) => given,
        Err(error) => return Err(without_words(&error)),
    };
    let mut words = Vec::new(rt.alloc());
    for word in given.skip(1) {
        if let Err(failed) = words.push(word) {
            return Err(Status::memory(failed.into()));
        }
    }
    Ok(words)
}

fn main(rt: HostRuntime) -> ExitCode {
    let status = match given_words(&rt) {
        Err(status) => status,
        Ok(words) => {
            let mut source = Reading::new(rt.stdin());
            let mut sink = Writing::new(rt.stdout());
            let mut shelf = FileShelf::new(&rt);
            let mut doors = TcpDoors::new(&rt, links(words.as_slice()));
            pequod(
                &rt,
                rt.alloc(),
                words.as_slice(),
                &mut source,
                &mut sink,
                &mut shelf,
                &mut doors,
                &OpenGate,
            )
        }
    };
    if let Some(message) = status.message() {
        let _ = rt.eprintln(message);
    }
    if status == Status::WORDS
        && let Ok(text) = usage(rt.alloc())
    {
        let _ = rt.eprintln(text.as_str());
    }
    ExitCode::from(status.number())
}

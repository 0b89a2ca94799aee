// A fitter's desk: takes plain commands from standard input, one a line, and says in plain words what each did.
#![tactic(auto)]

mod command;
mod counts;
mod desk;
mod grounds;
mod memory;
mod store;
mod telling;
mod words;

use command::{Command, read_command};
use desk::Desk;
use std::io;
use telling::{tell_home, tell_reply};

// Does one command and says what it did.
fn obey(rt: &HostRuntime, desk: &mut Desk, command: Command) -> io::Result<()> {
    match command {
        Command::Home(home) => tell_home(rt, home.n, desk.open(&home)),
        Command::Call(request) => match desk.ask(request) {
            None => println!(rt; "no home yet: give one first"),
            Some(answer) => tell_reply(rt, desk, request, answer),
        },
    }
}

// A line that is no command changes nothing; one with no word says nothing either.
fn take_line(rt: &HostRuntime, desk: &mut Desk, line: &str) -> io::Result<()> {
    let words: Vec<&str> = line.split_whitespace().collect(rt.alloc())?;
    if words.is_empty() {
        return Ok(());
    }
    match read_command(words.as_slice()) {
        None => println!(rt; "cannot read, nothing done: {line}"),
        Some(command) => obey(rt, desk, command),
    }
}

// A line whose bytes are no text is passed over; any other error ends the program.
fn pass_over(rt: &HostRuntime, error: io::Error) -> io::Result<()> {
    match error.kind() {
        io::ErrorKind::InvalidData => println!(rt;
            "cannot read, nothing done: the line is no text"
        ),
        _ => Err(error),
    }
}

fn main(rt: HostRuntime) -> io::Result<()> {
    let mut desk = Desk::new();
    for line in rt.lines(rt.alloc()) {
        match line {
            Ok(line) => take_line(&rt, &mut desk, line.as_str())?,
            Err(error) => pass_over(&rt, error)?,
        }
    }
    Ok(())
}

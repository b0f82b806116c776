//! The switch as a program: it does what its words ask for, from standard input to standard output.
#![tactic(auto)]

use std::alloc::Global;
use std::hash::RandomState;
use std::io::{ErrorKind, Write};
use std::process::ExitCode;
use std::rt::Env;
use std::{env, io};
use switch_cli::{Status, Words, run};
use upi_io::{Reading, Writing};

// The words behind the program's name. Words that aren't text are no command.
fn words(rt: &(impl Env + AllocGlobal), alloc: Global) -> Result<Words, Status> {
    let mut list = Vec::new(alloc);
    let args = match env::args(rt) {
        Ok(args) => args,
        Err(error) if error.kind() == ErrorKind::OutOfMemory => return Err(Status::NoMemory),
        Err(_) => return Err(Status::Usage),
    };
    for (place, word) in args.enumerate() {
        if place > 0 && list.push(word).is_err() {
            return Err(Status::NoMemory);
        }
    }
    Ok(Words::of(list))
}

// The room of a status's line, in bytes: no status has a longer one.
const LINE_ROOM: usize = 100;

fn main(rt: HostRuntime) -> ExitCode {
    let alloc = rt.alloc();
    let mut source = Reading::new(rt.reader());
    let mut sink = Writing::new(io::writer(&rt));
    // The memory of the line is taken before anything is read, so that no end goes unsaid for want of it.
    let mut line = Vec::new(alloc);
    let status = match (line.reserve(LINE_ROOM), RandomState::new(&rt)) {
        (Ok(()), Ok(hashes)) => match words(&rt, alloc) {
            Ok(words) => run(alloc, hashes, &words, &mut source, &mut sink),
            Err(status) => status,
        },
        _ => Status::NoMemory,
    };
    let text: &[u8] = match status.write_line(&mut line) {
        Ok(()) => &line,
        Err(_) => b"upi: no memory\n",
    };
    // Where standard error can't be written, the exit code still tells.
    let _ = rt.stderr().write_all(text);
    ExitCode::from(status.code())
}

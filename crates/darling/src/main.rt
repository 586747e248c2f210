//! The program: the tool over standard input and output.
#![tactic(auto)]

mod diagnostic;

use crate::diagnostic::diagnostic;
use darling_run::{Status, StdHost, StdSink, StdSource, run_tool};
use run_diagnostic::KeepingSource;
use std::env::Env;
use std::process::ExitCode;
use std::{env, io};

/// The number for a failed write of the help or the version.
const WRITE_FAULT: u8 = 5;

/// The number for want of memory before the tool is called.
const NO_MEMORY: u8 = 6;

const HELP: &str = "\
usage: darling run < INPUT

Reads declarations of parsers, a line `%%`, and annotated items. Behind a second line `%%` there may be
a table of names, whose lines are a rule, `field` or `variant`, an identifier and a name. Runs the last
declaration's parser over each item, and writes its value, or all its faults with their places:

  #[derive(FromDeriveInput)]
  #[darling(attributes(my))]
  struct Opts { name: String, #[darling(default)] level: u8 }
  %%
  #[my(name = \"a\")] struct S;
  #[my(level = 300)] struct T;

is answered by

  ok S Opts {name: \"a\", level: 0}
  err T 2
    41..44 number too large to fit in target type at level
    - Missing field `name`

Status: 0 done, 2 usage, 3 refused, 4 read fault, 5 write fault, 6 out of memory.
";

const VERSION: &str = "darling 0.1.0\n";

const NO_MEMORY_TEXT: &str = "\
error: out of memory, or more than 512 declarations are flattened into each other, or a default is over 1,024 levels deep
";

/// How many bytes of stack the deepest run takes, and some more: that of 512 declarations that are flattened into each other takes some
/// 4,300 kB. `bench/limits.sh` fails where a run takes more than this.
const DEEPEST: usize = 5 << 20;

/// Touches as much of the stack as the deepest run takes. The pages stay, so that memory ends where a status tells
/// it, and not where a deep tree is dropped.
#[inline(never)]
fn take_stack(word_count: usize) -> bool {
    let mut room = [0u8; DEEPEST];
    // The places are not known before the program runs, so that the room is not optimized away.
    let at = word_count % DEEPEST;
    room[at] = 1;
    room[(at + 1) % DEEPEST] == 0
}

fn main(rt: HostRuntime) -> ExitCode {
    let words = match words(&rt) {
        Ok(words) => words,
        Err(error) if error.kind() == io::ErrorKind::OutOfMemory => {
            return ExitCode::from(NO_MEMORY);
        }
        // Words that are no text are none of the commands.
        Err(_) => Vec::new(rt.alloc()),
    };
    if let [word] = words.as_slice() {
        match word.as_str() {
            "--help" => return say(&rt, HELP),
            "--version" => return say(&rt, VERSION),
            _ => {}
        }
    }
    if !take_stack(words.len()) {
        return ExitCode::from(NO_MEMORY);
    }
    let Ok(host) = StdHost::new(rt.alloc()) else {
        return ExitCode::from(NO_MEMORY);
    };
    let mut source = KeepingSource::new(rt.alloc(), StdSource::new(rt.stdin()));
    let mut sink = StdSink::new(rt.stdout());
    let ended = run_tool(rt.alloc(), words.as_slice(), &mut source, &mut sink, &host);
    tell(&rt, source.kept(), &ended.status);
    ExitCode::from(ended.status.exit_code())
}

/// Writes to standard error what a person is told of how the run ended. The status stays as it is where that fails.
fn tell<R: Eprint + AllocGlobal>(rt: &R, input: Option<&[u8]>, status: &Status) {
    let constant = match status {
        Status::Usage => "error: the one command is `run`; `darling --help` has an example\n",
        Status::ReadFault => "error: standard input could not be read to its end\n",
        Status::TooLong => "error: an input has at most 16,777,216 bytes\n",
        Status::NoMemory => NO_MEMORY_TEXT,
        _ => "",
    };
    let written = match input {
        Some(input) if constant.is_empty() => match diagnostic(rt.alloc(), input, status) {
            Ok(text) => eprint!(rt; "{}", text.as_str()),
            Err(_) => Ok(()),
        },
        _ => eprint!(rt; "{constant}"),
    };
    // Who closes standard error is told nothing.
    let _written = written;
}

/// The words behind the program's name.
fn words<R: Env + AllocGlobal>(rt: &R) -> io::Result<Vec<String>> {
    let mut words = Vec::new(rt.alloc());
    for word in env::args(rt)?.skip(1) {
        words
            .push(word)
            .map_err(|_| io::Error::from(io::ErrorKind::OutOfMemory))?;
    }
    Ok(words)
}

fn say(rt: &impl Print, text: &str) -> ExitCode {
    match print!(rt; "{text}") {
        Ok(()) => ExitCode::SUCCESS,
        Err(_) => ExitCode::from(WRITE_FAULT),
    }
}

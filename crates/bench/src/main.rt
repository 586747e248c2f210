//! Lexes one long text, or lexes and parses it: `bench lex WORKLOAD MEGABYTES`, and `parse` in place of `lex`;
//! `tokens` lexes what `parse` reads. The three words may stand twice. `bench/run.sh` measures it.
#![tactic(auto)]

mod lexed;
mod text;

use meta_nested::NestedMeta;
use std::alloc::Global;
use std::env::Env;
use std::process::ExitCode;
use std::{env, io};
use syn_core::{Parse, ParseFail, parse_exprs, parse_items, parse_paths};
use text::List;
use tok_core::{Items, LexError, Mem, TokenStream, lex};

/// What a text may have at most.
const LIMIT: usize = 16_777_216;

const MEGABYTE: usize = 1_048_576;

/// What is asked for; empty words where they are not there.
#[derive(Drop)]
struct Command {
    stage: String,
    workload: String,
    megabytes: String,
}

fn main(rt: HostRuntime) -> ExitCode {
    let Ok((first, second)) = words(&rt) else {
        return ExitCode::from(2);
    };
    let status = measure(&rt, &first);
    if status != 0 || second.stage.as_str().is_empty() {
        return ExitCode::from(status);
    }
    ExitCode::from(measure(&rt, &second))
}

/// The words behind the program's name.
fn words<R: Env + AllocGlobal>(rt: &R) -> io::Result<(Command, Command)> {
    let mut words = env::args(rt)?.skip(1);
    let first = Command {
        stage: words.next().unwrap_or(String::new(rt.alloc())),
        workload: words.next().unwrap_or(String::new(rt.alloc())),
        megabytes: words.next().unwrap_or(String::new(rt.alloc())),
    };
    let second = Command {
        stage: words.next().unwrap_or(String::new(rt.alloc())),
        workload: words.next().unwrap_or(String::new(rt.alloc())),
        megabytes: words.next().unwrap_or(String::new(rt.alloc())),
    };
    Ok((first, second))
}

/// Makes the text of the words and works on it. The status is 0 where a line is written.
fn measure<R: Print + AllocGlobal>(rt: &R, words: &Command) -> u8 {
    let Some(size) = size_of(words.megabytes.as_str()) else {
        return 2;
    };
    match text_of(rt.alloc(), words, size) {
        Ok((list, text)) => run(rt, list, text.as_str()),
        Err(_) => 6,
    }
}

/// The bytes of so many megabytes, from 1 to 16.
fn size_of(megabytes: &str) -> Option<usize> {
    match megabytes.parse::<usize>() {
        Ok(count @ 1..=16) => Some(count * MEGABYTE),
        _ => None,
    }
}

/// The text, and what it is read as; an empty text where there is no such stage or workload.
fn text_of(alloc: Global, words: &Command, size: usize) -> Mem<(List, String)> {
    let workload = words.workload.as_str();
    match words.stage.as_str() {
        "lex" => Ok((List::Tokens, lexed::text_of(alloc, workload, size)?)),
        "tokens" => Ok((List::Tokens, text::text_of(alloc, workload, size)?.1)),
        "parse" => text::text_of(alloc, workload, size),
        _ => Ok((List::Tokens, String::new(alloc))),
    }
}

fn run<R: Print + AllocGlobal>(rt: &R, list: List, text: &str) -> u8 {
    if text.is_empty() {
        return 2;
    }
    if text.len() > LIMIT {
        return 3;
    }
    match lex(rt.alloc(), 0, text) {
        Ok(tokens) => say(rt, text.len(), list, parsed(rt.alloc(), list, &tokens)),
        Err(LexError::NoMemory) => 6,
        Err(_) => say(rt, text.len(), list, Outcome::Refused),
    }
}

/// What became of a text.
enum Outcome {
    Items(usize),
    Refused,
    NoMemory,
}

fn parsed(alloc: Global, list: List, tokens: &TokenStream) -> Outcome {
    match list {
        List::Tokens => Outcome::Items(tokens.trees.len()),
        List::Exprs => told(parse_exprs(alloc, tokens)),
        List::Paths => told(parse_paths(alloc, tokens)),
        List::Items => told(parse_items(alloc, tokens)),
        List::Nested => told(NestedMeta::parse_meta_list(alloc, tokens)),
    }
}

/// Trees are let go here, for whatever they are.
fn told<T: Drop>(parsed: Parse<Items<T>>) -> Outcome {
    match parsed {
        Ok(items) => Outcome::Items(items.len()),
        Err(ParseFail::Syn(_)) => Outcome::Refused,
        Err(ParseFail::NoMemory) => Outcome::NoMemory,
    }
}

fn say(rt: &impl Print, bytes: usize, list: List, outcome: Outcome) -> u8 {
    let what = match list {
        List::Tokens => "trees",
        _ => "items",
    };
    let said = match outcome {
        Outcome::Items(number) => println!(rt; "{bytes} bytes, {number} {what}"),
        Outcome::Refused => println!(rt; "{bytes} bytes, refused"),
        Outcome::NoMemory => return 6,
    };
    match said {
        Ok(()) => 0,
        Err(_) => 5,
    }
}

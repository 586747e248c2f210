//! The tool: from a source and its words to a sink.

ghost use Rattle.std.specs.Prelude.{◌≡◌, ◌↔◌, map, string_bytes, ◌≢◌, IsTrue, IfOk, OnOk};

use crate::input::run_input;
use crate::refusal::refusal_text;
use crate::report::report_text;
use crate::status::Status;
use base_core::{Mem, Text, TryClone};
use edge_core::{ReadAll, Sink, Source, read_all, write_all};
use run_source::{Host, Report};
use std::alloc::{AllocError, Global};
use tok_core::MAX_LEN;

/// How many bytes an input has at most.
const LIMIT: u64 = MAX_LEN as u64;

/// How a run ended, and its report where one was made.
pub struct Ended {
    pub status: Status,
    /// Some exactly where the status is [`Status::Done`], or [`Status::WriteFault`] after a
    /// completed run.
    pub report: Option<Report>,
}

impl TryClone for Ended {
    fn try_clone(&self, alloc: Global) -> Mem<Ended> {
        Ok(Ended {
            status: self.status.try_clone(alloc)?,
            report: self.report.try_clone(alloc)?,
        })
    }
}

ghost use Rattle.darling_run.specs.Ended.{IsRunCommand, Answered, IsWritten, Ends, text_of, status_of, report_of};
ghost use Rattle.darling_run.specs.declared.status.Status.TheVariants.{NoMemory};

/// Runs the tool: reads the source to its end, runs the last declaration's parser over each item with the functions of the
/// host, and writes a line for each, or the line of a refusal.
///
/// `words` are those behind the program's name. The one command is `run`. All text is made before
/// the first byte is written.
pub fn run_tool<S: Source, K: Sink, H: Host>(
    alloc: Global,
    words: &[String],
    source: &mut S,
    sink: &mut K,
    host: &H,
) -> Ended
    ensures { Ends
        (H.says host.now)
        (map string_bytes words.now)
        (record {
          left = S.left source.old;
          left_after = S.left source.new;
          faults = S.faults source.old;
          faults_after = S.faults source.new;
        })
        (record {
          may_fall_silent = K.may_fall_silent;
          taken = K.taken sink.old;
          taken_after = K.taken sink.new;
          faults = K.faults sink.old;
          faults_after = K.faults sink.new;
        })
        result }
{
    let answer = answer(alloc, words, source, host);
    write_answer(alloc, answer, sink)
}

fn answer<S: Source, H: Host>(
    alloc: Global,
    words: &[String],
    source: &mut S,
    host: &H,
) -> Result<Report, Status>
    ensures { Answered
        (H.says host.now)
        (map string_bytes words.now)
        (record {
          left = S.left source.old;
          left_after = S.left source.new;
          faults = S.faults source.old;
          faults_after = S.faults source.new;
        })
        result }
{
    if !is_run(words) {
        return Err(Status::Usage);
    }
    match read_all(alloc, source, LIMIT) {
        Ok(bytes) => run_input(alloc, bytes.as_slice(), host),
        Err(ReadAll::ReadFault) => Err(Status::ReadFault),
        Err(ReadAll::TooLong) => Err(Status::TooLong),
        Err(ReadAll::NoMemory) => Err(Status::NoMemory),
    }
}

fn is_run(words: &[String]) -> bool
    ensures { IsTrue result ↔ IsRunCommand (map string_bytes words.now) }
{
    match words {
        [word] => is_text(word, "run"),
        _ => false,
    }
}

fn is_text(word: &String, text: &str) -> bool
    ensures { IsTrue result ↔ (string_bytes word.now ≡ text.now) }
{
    word.as_str() == text
}

fn write_answer<K: Sink>(alloc: Global, answer: Result<Report, Status>, sink: &mut K) -> Ended
    ensures { IsWritten
        (record {
          may_fall_silent = K.may_fall_silent;
          taken = K.taken sink.old;
          taken_after = K.taken sink.new;
          faults = K.faults sink.old;
          faults_after = K.faults sink.new;
        })
        answer
        result }
{
    let Ok(text) = answer_text(alloc, &answer) else {
        return Ended {
            status: Status::NoMemory,
            report: None,
        };
    };
    match write_all(sink, text.as_str().as_bytes()) {
        Ok(()) => ended_fully(answer),
        Err(_) => Ended {
            status: Status::WriteFault,
            report: answer.ok(),
        },
    }
}

/// The text of an answer. There is none for want of memory.
fn answer_text(alloc: Global, answer: &Result<Report, Status>) -> Mem<Text>
    ensures text { IfOk result (λ text. text ≡ text_of answer.now) }
    ensures memory { OnOk result (status_of answer.now ≢ NoMemory) }
{
    match answer {
        Ok(report) => report_text(alloc, report),
        Err(Status::NoMemory) => Err(AllocError),
        Err(status) => refusal_text(alloc, status),
    }
}

fn ended_fully(answer: Result<Report, Status>) -> Ended
    ensures status { result.status ≡ status_of answer }
    ensures report { result.report ≡ report_of answer }
{
    match answer {
        Ok(report) => Ended {
            status: Status::Done,
            report: Some(report),
        },
        Err(status) => Ended {
            status,
            report: None,
        },
    }
}

impl Drop for Ended {
    fn drop(self) {
        let Self {
            status: _status,
            report: _report,
        } = self;
    }
}

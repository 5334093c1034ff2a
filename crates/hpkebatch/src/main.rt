//! The command `hpkebatch`: reads one input from standard input and writes its text to standard
//! output.
//!
//! [`serve_words`] does all the work. Standard output holds that text alone. Standard error gets
//! one line for each outcome but `Done` and `BadBatch`, and nothing else. The exit status is
//! `status`.
//!
//! Tests: `examples/run` runs the built program over stored batches.
#![tactic(auto)]

mod words;
mod wrong_words;

use crate::words::words;
use crate::wrong_words::wrong_word;
use batch_io::{FreeGate, StdSink, StdSource};
use batch_runner::{Outcome, serve_words, status};
use std::io;
use std::io::ErrorKind;
use std::process::ExitCode;

// Of words that spell no command where none can be blamed alone, as one that is no text.
const USAGE: &'static str = "usage: hpkebatch run [--workers W] [--mult plain|karatsuba|lanes] | \
    live [--workers W] [--mult M] | rehearse SCHEDULE | demo SEED MESSAGES LANES | \
    check [--live] [--mult M] | capsules [--mult M]";

// What standard error is told of an outcome.
fn message(outcome: &Outcome) -> Option<&'static str> {
    match outcome {
        Outcome::Done | Outcome::BadBatch { .. } => None,
        Outcome::Usage => Some(USAGE),
        Outcome::ReadFault => Some("the input could not be read"),
        Outcome::WriteFault => Some("the reply could not be written"),
        Outcome::OutOfMemory => Some("out of memory"),
        Outcome::Broken { .. } => Some("the result is not legal"),
    }
}

// The line on standard error, if the outcome has one. There are no words where one of them is no text.
fn tell(rt: &HostRuntime, outcome: &Outcome, words: Option<&Vec<String>>) {
    if let (Outcome::Usage, Some(words)) = (outcome, words) {
        if let Some(wrong) = wrong_word(words) {
            let _ = eprintln!(rt; "hpkebatch: {wrong}");
            return;
        }
    }
    if let Some(message) = message(outcome) {
        let _ = eprintln!(rt; "hpkebatch: {message}");
    }
}

fn main(rt: HostRuntime) -> ExitCode {
    let (outcome, words) = match words(&rt) {
        Ok(words) => {
            let mut source = StdSource::new(rt.reader());
            let mut sink = StdSink::new(io::writer(&rt));
            let gate = FreeGate::new();
            let outcome = serve_words(&rt, rt.alloc(), &words, &mut source, &mut sink, &gate);
            (outcome, Some(words))
        }
        Err(error) if error.kind() == ErrorKind::OutOfMemory => (Outcome::OutOfMemory, None),
        Err(_) => (Outcome::Usage, None),
    };
    tell(&rt, &outcome, words.as_ref());
    ExitCode::from(status(&outcome))
}

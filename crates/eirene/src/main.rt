//! The program `eirene`: it reads lines that declare two schemas and edit data examples, and prints the most general
//! GLAV or GAV mapping for which every target is a universal solution of its source, or shows why none is.
//!
//! `top` has the one call, `run`. Lines are read by `eir_script`, schemas and names are kept by `eir_schema`, examples
//! with their undo list by `eir_edit`; faults are found by `eir_verdict`, refutations by `eir_ext`, mappings are made by
//! `eir_canon`, and texts by `eir_print`. What is here is the state of a run (`workspace`), the order of a verdict's
//! tests (`verdict`), and the input and the output, line by line. `main` makes the real streams, calls `run`, prints the
//! text of its status, and has nothing else.
//!
//! # What a contract sees
//!
//! `run` speaks of the bytes that its source and its sink tell, in the words of `specs/Promise` and
//! `specs/Outcomes`: all that is written for an input is `output_of` of its bytes (`specs/Scripts`), a fold of
//! `reply_to` and `next` over the lines (`specs/Replies`); a `fit` is answered by `verdict` of `eir_term`, for the kind
//! that the lines before it asked for, on the present examples. The texts are those of `eir_print`, put together in
//! `specs/Texts`.
#![tactic(auto)]

mod input;
mod outbox;
mod reply;
mod script;
mod status;
#[cfg(test)]
mod tests;
mod top;
mod verdict;
mod workspace;

use crate::status::Status;
use crate::top::run;
use eir_io::{Reading, SureShelf, Writing};
use std::io::ErrorKind;
use std::process::ExitCode;
use std::rt::Env;

/// The words after the program's name. Words that are no text have no reading.
fn given_words(rt: &(impl Env + AllocGlobal)) -> Result<Vec<String>, Status> {
    let args = std::env::args(rt).map_err(|error| match error.kind() {
        ErrorKind::OutOfMemory => Status::Memory,
        _ => Status::BadWords,
    })?;
    args.skip(1).collect(rt.alloc()).map_err(|_| Status::Memory)
}

fn main(rt: HostRuntime) -> ExitCode {
    let mut input = Reading::new(rt.stdin());
    let mut out = Writing::new(rt.stdout());
    let mut shelf = SureShelf::new(rt.alloc());
    let status = match given_words(&rt) {
        Ok(words) => run(rt.alloc(), &words, &mut input, &mut out, &mut shelf),
        Err(status) => status,
    };
    if let Some(message) = status.message() {
        let _ = eprintln!(rt; "{message}");
    }
    ExitCode::from(status.number())
}

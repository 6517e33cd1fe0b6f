//! What the words of the command line of `smp_runner` ask for.

use crate::status::Refusal;
use clap::error::ErrorKind;
use clap::{Arg, Command};
use smp_mask::SmpError;
use smp_script::Mode;
use std::alloc::{AllocError, Global};

/// What to run: a script of this kind from a file, or from standard input.
#[derive(Drop)]
pub struct RunRequest<'a> {
    pub mode: Mode,
    pub file: Option<&'a str>,
}

fn grammar<'a>(alloc: Global) -> Result<Command<'a>, AllocError> {
    let mut grammar = Command::new(alloc, "smp_runner");
    for name in ["replay", "run"] {
        let command = Command::new(alloc, name).arg(Arg::new(alloc, "FILE"))?;
        grammar = grammar.subcommand(command)?;
    }
    Ok(grammar)
}

/// What the words ask for: `Failed(NoMemory)` where a growth was refused, and `Usage` where they are no command line, or
/// ask for help.
pub fn read_words<'a>(alloc: Global, words: &'a [&'a str]) -> Result<RunRequest<'a>, Refusal> {
    let Ok(grammar) = grammar(alloc) else {
        return Err(Refusal::Failed(SmpError::NoMemory));
    };
    match grammar.try_get_matches_from(words) {
        Ok(matches) => match matches.subcommand() {
            Some((name, found)) => Ok(RunRequest {
                mode: if name == "run" {
                    Mode::Run
                } else {
                    Mode::Replay
                },
                file: found.get_str("FILE"),
            }),
            None => Err(Refusal::Usage),
        },
        Err(e) => match e.kind() {
            ErrorKind::OutOfMemory => Err(Refusal::Failed(SmpError::NoMemory)),
            _ => Err(Refusal::Usage),
        },
    }
}

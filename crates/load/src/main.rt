//! Loads the library's machine with calls and stops, by threads: `load bench` measures them, and `load torture` makes them at
//! random and checks what was heard. `load --help` says more.
//!
//! - `grammar`, `request`: What the command line may have, and what it asks for.
//! - `bench`: Workloads, and what is measured of them.
//! - `torture`: Random work on all CPUs, and what is counted of it.
//! - `watch`: The thread that tells standard error what goes on.
//! - `cpus`, `flag`, `error`: What both commands use.
#![tactic(auto)]

mod bench;
mod cpus;
mod error;
mod flag;
mod grammar;
mod request;
mod torture;
mod watch;

use crate::error::LoadError;
use crate::request::{Request, read_words};
use std::alloc::{AllocError, Global};
use std::process::ExitCode;
use std::sync::Wait;
use std::thread::Threads;
use std::time::{Clock, CpuClock};
use std::{env, io};

/// Does what is asked for: whether all counts are right.
fn do_request<R: Wait + Threads + Clock + CpuClock + Print + Eprint + Sync>(
    rt: &R,
    alloc: Global,
    request: &Request,
) -> Result<bool, LoadError> {
    if let Some(asked) = &request.bench {
        bench::run_all(rt, alloc, asked)?;
    }
    match &request.torture {
        Some(asked) => torture::run(rt, alloc, asked),
        None => Ok(true),
    }
}

/// Does what is asked for, and answers the status. Why it could not be done is said on standard error.
fn status_of<R: Wait + Threads + Clock + CpuClock + Print + Eprint + Sync>(
    rt: &R,
    alloc: Global,
    request: &Request,
) -> io::Result<u8> {
    match do_request(rt, alloc, request) {
        Ok(true) => Ok(0),
        Ok(false) => Ok(1),
        Err(error) => {
            eprintln!(rt; "load: {error}")?;
            Ok(2)
        }
    }
}

/// Does what these words of the command line ask for, and answers the status.
fn do_words<R: Wait + Threads + Clock + CpuClock + Print + Eprint + Sync>(
    rt: &R,
    alloc: Global,
    words: &[String],
) -> io::Result<u8> {
    match read_words(alloc, words) {
        Ok(request) => status_of(rt, alloc, &request),
        Err(error) => {
            error.print(rt)?;
            Ok(if error.use_stderr() { 2 } else { 0 })
        }
    }
}

/// The words of the command line.
fn words_of(rt: &HostRuntime) -> io::Result<Vec<String>> {
    let words: Result<Vec<String>, AllocError> = env::args(rt)?.collect(rt.alloc());
    Ok(words?)
}

/// Says on standard error why the words could not be read, or nothing could be printed, and answers the status.
fn tell<R: Eprint>(rt: &R, error: &io::Error) -> ExitCode {
    let cause = match error.kind() {
        io::ErrorKind::InvalidData => "invalid UTF-8 was detected in one or more arguments",
        io::ErrorKind::OutOfMemory => "no memory",
        _ => "nothing to print to",
    };
    eprintln!(rt; "error: {cause}").is_ok();
    ExitCode::from(2)
}

fn main(rt: HostRuntime) -> ExitCode {
    let words = match words_of(&rt) {
        Ok(words) => words,
        Err(error) => return tell(&rt, &error),
    };
    match do_words(&rt, rt.alloc(), words.as_slice()) {
        Ok(status) => ExitCode::from(status),
        Err(error) => tell(&rt, &error),
    }
}

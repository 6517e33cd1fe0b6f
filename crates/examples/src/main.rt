//! Makes a search of the program's own. Then it takes each example of the folder that it is run in, and compares what it prints
//! with what is expected of it.
//!
//! An example is a text `NAME.smp`, and `NAME.smp.stdout` is what it prints. `NAME.smp.args` is the word by which it is
//! taken. The examples are in `data`, so that the gate compares all of them: those of `smp_runner` at its top, and those of
//! `smp` in the folder `smp`.
//!
//! - `kind`: How an example is taken.
//! - `compare`: What an example prints, beside what it is to print.
//! - `wake_up`: A search through every order in which a CPU falls asleep while others wake it.
#![tactic(auto)]

mod compare;
mod kind;
mod wake_up;

use crate::compare::prints;
use crate::kind::kind_of;
use crate::wake_up::print_orders;
use smp_mask::SmpError;
use std::fs::{File, read_dir};
use std::io;
use std::io::Read;
use std::process::ExitCode;
use std::sync::Wait;
use std::thread::Threads;

// All bytes of a file.
fn read_file(rt: &HostRuntime, name: &str) -> io::Result<Vec<u8>> {
    let mut bytes = Vec::new(rt.alloc());
    File::open(rt, name)?.read_to_end(&mut bytes)?;
    Ok(bytes)
}

// All bytes of the file that goes with this one under this ending.
fn read_beside(rt: &HostRuntime, name: &str, ending: &str) -> io::Result<Vec<u8>> {
    read_file(rt, format!(in rt.alloc(); "{name}.{ending}")?.as_str())
}

// The names of the examples in this folder, ascending, each behind `front`.
fn examples_in(rt: &HostRuntime, folder: &str, front: &str) -> io::Result<Vec<String>> {
    let mut names = Vec::new(rt.alloc());
    for entry in read_dir(rt, folder)? {
        let entry = entry?;
        let name = entry.file_name();
        if name.ends_with(".smp") {
            names.push(format!(in rt.alloc(); "{front}{name}")?)?;
        }
    }
    names.sort()?;
    Ok(names)
}

// Prints a line for an example: whether it is as expected.
fn tell(rt: &HostRuntime, name: &str, answer: Result<bool, SmpError>) -> io::Result<bool> {
    match answer {
        Ok(true) => println!(rt; "{name}: as expected")?,
        Ok(false) => println!(rt; "{name}: prints something else")?,
        Err(error) => println!(rt; "{name}: {error}")?,
    }
    Ok(answer == Ok(true))
}

// Compares one example, and prints a line for it: whether it is as expected.
fn compare_one<T: Threads + Wait + Sync>(
    rt: &HostRuntime,
    threads: &T,
    name: &str,
) -> io::Result<bool> {
    let text = read_file(rt, name)?;
    let expected = read_beside(rt, name, "stdout")?;
    let word = read_beside(rt, name, "args")?;
    let Some(kind) = kind_of(word.as_slice()) else {
        println!(rt; "{name}: there is no such way to take it")?;
        return Ok(false);
    };
    let answer = prints(
        threads,
        rt.alloc(),
        kind,
        text.as_slice(),
        expected.as_slice(),
    );
    tell(rt, name, answer)
}

// Compares the examples of a folder, and prints how many there are: whether all are as expected.
fn compare_all<T: Threads + Wait + Sync>(
    rt: &HostRuntime,
    threads: &T,
    folder: &str,
    front: &str,
) -> io::Result<bool> {
    let names = examples_in(rt, folder, front)?;
    let mut all = true;
    for name in names.iter() {
        all = compare_one(rt, threads, name.as_str())? && all;
    }
    let count = names.len();
    println!(rt; "{count} examples")?;
    Ok(all)
}

fn main(rt: HostRuntime) -> io::Result<ExitCode> {
    let searched = print_orders(&rt, rt.alloc())?;
    let runner = compare_all(&rt, &rt, ".", "")?;
    let smp = compare_all(&rt, &rt, "smp", "smp/")?;
    let all = searched && runner && smp;
    Ok(ExitCode::from(if all { 0 } else { 1 }))
}

//! Reads applications with their files, and writes the instances and pairs of each, or where it is refused and why.
//!
//! A line `= NAME` begins the application of this name; behind `~ NAME` only the numbers of its instances and pairs are written. A
//! line `+ FILE` begins a file of it, whose lines follow. A line `! COUNT` is an application of so many files, each of which names
//! the next one. Behind the pairs stands how often a file was read.
#![tactic(auto)]

mod answer;
mod application;
mod chain;
mod sources;
mod texts;

use answer::answer;
use application::{Application, application_of};
use nm_base::NoMemory;
use std::alloc::Global;
use std::io::{self, BufRead, BufReader, Write};

// What is said of an application that ended, if one did.
fn told(alloc: Global, ended: Option<Application>) -> Result<Vec<u8>, NoMemory> {
    match ended {
        Some(application) => answer(alloc, application),
        None => Ok(Vec::new(alloc)),
    }
}

// Takes a line. Answers what is said of the application that it ends, if it ends one.
fn take(alloc: Global, last: &mut Option<Application>, line: &[u8]) -> Result<Vec<u8>, NoMemory> {
    if let Some(next) = application_of(alloc, line)? {
        return told(alloc, last.replace(next));
    }
    if let Some(application) = last {
        application.take(alloc, line)?;
    }
    Ok(Vec::new(alloc))
}

fn main(rt: HostRuntime) -> io::Result<()> {
    let alloc = rt.alloc();
    let mut last = None;
    for line in BufReader::new(alloc, rt.reader())?.lines(alloc) {
        let line = line?;
        match take(alloc, &mut last, line.as_bytes()) {
            Ok(text) => io::writer(&rt).write_all(text.as_slice())?,
            Err(_) => println!(rt; "no memory")?,
        }
    }
    match told(alloc, last) {
        Ok(text) => io::writer(&rt).write_all(text.as_slice()),
        Err(_) => println!(rt; "no memory"),
    }
}

//! Reads applications with their files, and writes the wired program of each, or where it is refused and why.
//!
//! A line `= NAME` begins the application of this name; behind `~ NAME` only the numbers of what its program has are written. A line
//! `+ FILE` begins a file of it, whose lines follow.
#![tactic(auto)]

mod answer;
mod program;

use answer::answer;
use application_texts::{Application, application_of};
use nm_base::NoMemory;
use std::alloc::Global;
use std::io::{self, BufRead, BufReader, Write};

// Takes a line. Answers what is to be said of the application that ends before it, if one does.
fn take(
    alloc: Global,
    last: &mut Option<Application>,
    line: &[u8],
) -> Result<Option<Vec<u8>>, NoMemory> {
    if let Some(next) = application_of(alloc, line)? {
        return match last.replace(next) {
            Some(ended) => Ok(Some(answer(alloc, ended)?)),
            None => Ok(None),
        };
    }
    if let Some(application) = last {
        application.take(alloc, line)?;
    }
    Ok(None)
}

fn main(rt: HostRuntime) -> io::Result<()> {
    let alloc = rt.alloc();
    let mut last = None;
    for line in BufReader::new(alloc, rt.reader())?.lines(alloc) {
        let line = line?;
        match take(alloc, &mut last, line.as_bytes()) {
            Ok(Some(text)) => io::writer(&rt).write_all(text.as_slice())?,
            Ok(None) => {}
            Err(_) => println!(rt; "no memory")?,
        }
    }
    match take(alloc, &mut last, b"= ") {
        Ok(Some(text)) => io::writer(&rt).write_all(text.as_slice()),
        Ok(None) => Ok(()),
        Err(_) => println!(rt; "no memory"),
    }
}

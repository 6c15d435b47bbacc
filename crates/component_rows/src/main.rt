//! Reads files of components and interfaces, each behind a line `= c NAME` or `= i NAME`, and writes what each holds with the type names behind it, or where it is refused and why.
#![tactic(auto)]

mod answer;
mod declarations;
mod parts;
mod types;

use answer::answer;
use std::alloc::Global;
use std::io::{self, BufRead, BufReader, Write};
use types::put;

/// What a line begins with that names a file.
const MARK: &[u8] = b"= ";

// Writes what is said of a file.
fn say(rt: &HostRuntime, alloc: Global, head: &[u8], text: &[u8]) -> io::Result<()> {
    if head.is_empty() {
        return Ok(());
    }
    match answer(alloc, head, text) {
        Ok(said) => io::writer(rt).write_all(said.as_slice()),
        Err(_) => println!(rt; "no memory"),
    }
}

fn main(rt: HostRuntime) -> io::Result<()> {
    let alloc = rt.alloc();
    let mut head = Vec::new(alloc);
    let mut text = Vec::new(alloc);
    for line in BufReader::new(alloc, rt.reader())?.lines(alloc) {
        let line = line?;
        if line.as_bytes().starts_with(MARK) {
            say(&rt, alloc, head.as_slice(), text.as_slice())?;
            head.clear();
            text.clear();
            if put(&mut head, line.as_bytes()).is_err() {
                println!(rt; "no memory")?;
            }
        } else if put(&mut text, line.as_bytes()).is_err() || put(&mut text, b"\n").is_err() {
            println!(rt; "no memory")?;
        }
    }
    say(&rt, alloc, head.as_slice(), text.as_slice())
}

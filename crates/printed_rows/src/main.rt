//! Reads files of nesC, each behind a line `= c NAME`, `= i NAME` or `= h NAME`, and writes how each is printed, and whether that reads back as the same tree.
#![tactic(auto)]

mod answer;

use answer::answer;
use nm_base::NoMemory;
use std::alloc::Global;
use std::io::{self, BufRead, BufReader, Write};

/// What a line begins with that names a file: `c` is a component, `i` an interface, `h` a header.
const MARK: &[u8] = b"= ";

fn put(out: &mut Vec<u8>, line: &[u8], end: &[u8]) -> Result<(), NoMemory> {
    out.extend_from_slice(line)?;
    out.extend_from_slice(end)?;
    Ok(())
}

// Writes a file as it is printed.
fn say(rt: &HostRuntime, alloc: Global, head: &[u8], text: &[u8]) -> io::Result<()> {
    if head.is_empty() {
        return Ok(());
    }
    io::writer(rt).write_all(head)?;
    println!(rt; "")?;
    match answer(alloc, head, text) {
        Ok(said) => io::writer(rt).write_all(said.as_slice()),
        Err(_) => println!(rt; "refused"),
    }
}

fn main(rt: HostRuntime) -> io::Result<()> {
    let alloc = rt.alloc();
    let mut head = Vec::new(alloc);
    let mut text = Vec::new(alloc);
    for line in BufReader::new(alloc, rt.reader())?.lines(alloc) {
        let line = line?;
        if line.as_bytes().starts_with(MARK) {
            say(&rt, alloc, head.as_slice(), text.as_slice())?;
            head.clear();
            text.clear();
            if put(&mut head, line.as_bytes(), b"").is_err() {
                println!(rt; "no memory")?;
            }
        } else if put(&mut text, line.as_bytes(), b"\n").is_err() {
            println!(rt; "no memory")?;
        }
    }
    say(&rt, alloc, head.as_slice(), text.as_slice())
}

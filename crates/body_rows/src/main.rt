//! Reads a statement on each line, and writes what stands in what, or where it is refused and why.
#![tactic(auto)]

mod answer;
mod texts;

use answer::{answer, known_types};
use std::io::{self, BufRead, BufReader, Write};

fn main(rt: HostRuntime) -> io::Result<()> {
    let alloc = rt.alloc();
    let mut names = match known_types(alloc) {
        Ok(names) => names,
        Err(_) => return Ok(()),
    };
    for line in BufReader::new(alloc, rt.reader())?.lines(alloc) {
        let line = line?;
        match answer(alloc, &mut names, line.as_bytes()) {
            Ok(text) => io::writer(&rt).write_all(text.as_slice())?,
            Err(_) => println!(rt; "no memory")?,
        }
    }
    Ok(())
}

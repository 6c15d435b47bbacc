//! Reads an expression, or behind `type` a type, on each line, and writes its tree, or where it is refused and why.
#![tactic(auto)]

mod answer;
mod trees;

use answer::{answer, known_types};
use std::io::{self, BufRead, BufReader, Write};

fn main(rt: HostRuntime) -> io::Result<()> {
    let alloc = rt.alloc();
    let names = match known_types(alloc) {
        Ok(names) => names,
        Err(_) => return Ok(()),
    };
    for line in BufReader::new(alloc, rt.reader())?.lines(alloc) {
        let line = line?;
        match answer(alloc, &names, line.as_bytes()) {
            Ok(text) => io::writer(&rt).write_all(text.as_slice())?,
            Err(_) => println!(rt; "no memory")?,
        }
    }
    Ok(())
}

//! Reads an expression on each line, or a constant behind `constant` or a type behind `type`, and writes what it is wired to, or where it is refused and why.
#![tactic(auto)]

mod answer;
mod context;

use answer::answer;
use context::{known_types, told};
use std::io::{self, BufRead, BufReader, Write};

fn main(rt: HostRuntime) -> io::Result<()> {
    let alloc = rt.alloc();
    let (Ok(names), Ok(told)) = (known_types(alloc), told(alloc)) else {
        return Ok(());
    };
    for line in BufReader::new(alloc, rt.reader())?.lines(alloc) {
        let line = line?;
        match answer(alloc, &names, &told, line.as_bytes()) {
            Ok(text) => io::writer(&rt).write_all(text.as_slice())?,
            Err(_) => println!(rt; "no memory")?,
        }
    }
    Ok(())
}

//! Reads a wiring on each line, and writes the targets of element 0 of instance 0, or why they are refused.
//!
//! A line has the number of the first instance that is a module, the parameter of the start or `-`, and the wires `FROM>TO` in their
//! order; an end is the number of an instance, with `:PARAM` behind it where the wire names a parameter. In a line `fan COUNT`
//! instance 0 is wired to as many modules; its targets are counted.
#![tactic(auto)]

mod line;
mod rows;

use rows::answer;
use std::io::{self, BufRead, BufReader, Write};

fn main(rt: HostRuntime) -> io::Result<()> {
    let alloc = rt.alloc();
    for line in BufReader::new(alloc, rt.reader())?.lines(alloc) {
        let line = line?;
        match answer(alloc, line.as_str()) {
            Ok(text) => io::writer(&rt).write_all(text.as_slice())?,
            Err(_) => println!(rt; "no memory")?,
        }
    }
    Ok(())
}

//! Reads the declarations of a header or a module on each line, and writes them with the type names behind them, or where they are refused and why.
#![tactic(auto)]

mod answer;
mod declarations;
mod types;

use answer::answer;
use std::io::{self, BufRead, BufReader, Write};

fn main(rt: HostRuntime) -> io::Result<()> {
    let alloc = rt.alloc();
    for line in BufReader::new(alloc, rt.reader())?.lines(alloc) {
        let line = line?;
        match answer(alloc, line.as_bytes()) {
            Ok(text) => io::writer(&rt).write_all(text.as_slice())?,
            Err(_) => println!(rt; "no memory")?,
        }
    }
    Ok(())
}

//! Reads a source on each line, and writes its tokens, as they stand or as they are expanded, or why it is refused.
//!
//! Behind `lex ` the tokens come as they stand, with their places; behind `count ` only their number after expansion. In a line
//! `$` stands for the end of a line of the source, and `$$` for the end of the source `a.nc` and the beginning of the header
//! `h.h`. A part N|OPEN|MIDDLE|CLOSE between two backquotes stands for N times OPEN, MIDDLE, and N times CLOSE.
#![tactic(auto)]

mod answer;
mod source;
mod texts;

use answer::answer;
use std::io::{self, BufRead, BufReader, Write};

fn main(rt: HostRuntime) -> io::Result<()> {
    let alloc = rt.alloc();
    for line in BufReader::new(alloc, rt.reader())?.lines(alloc) {
        let line = line?;
        match answer(alloc, line.as_bytes()) {
            Ok(text) => io::writer(&rt).write_all(text.as_slice())?,
            Err(_) => println!(rt; "no memory")?,
        }
    }
    Ok(())
}

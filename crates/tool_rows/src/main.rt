//! Reads applications with their files and calls of the top call, and writes of each call its words, its status and what of its text hangs on the source alone.
//!
//! A line `= NAME` begins an application; behind `~ NAME` the first line of each text and the number of its lines are told alone. A
//! line `+ FILE` begins a file of it, whose lines follow; each application has an empty `none.txt` too. A line `! COUNT TEXT` stands
//! for so many lines, with their numbers from 0 in the place of `$` and ends of lines in the place of `\n`; what it stands for may be
//! such a line again. Behind the files stand the calls: a line `> WORDS` is one; `* COUNT APP ROW` builds the application and runs its image
//! with so many schedules of one row, with their numbers in the place of `$`, of which the traces are told that differ without their
//! arrivals. A line `# TEXT` says why. Behind all lines it writes what a call says whose files or sink fail.
#![tactic(auto)]

mod calls;
mod outside;
mod repeats;
mod session;
mod shown;
mod traces;

use nm_base::NoMemory;
use outside::{OUTSIDE, cut_short};
use session::Session;
use std::io::{self, BufRead, BufReader, Write};

fn main(rt: HostRuntime) -> io::Result<()> {
    let alloc = rt.alloc();
    let mut session = Session::new(alloc);
    for line in BufReader::new(alloc, rt.reader())?.lines(alloc) {
        let line = line?;
        match session.take(alloc, line.as_str()) {
            Ok(text) => io::writer(&rt).write_all(text.as_bytes())?,
            Err(NoMemory) => println!(rt; "no memory")?,
        }
    }
    for outside in &OUTSIDE {
        match cut_short(alloc, outside) {
            Ok((status, text)) => {
                println!(rt; "{status}")?;
                io::writer(&rt).write_all(text.as_slice())?;
            }
            Err(NoMemory) => println!(rt; "no memory")?,
        }
    }
    Ok(())
}

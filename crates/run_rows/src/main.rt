//! Reads applications with their files and calls that run their images, makes each run again from the wired program, and writes what both show.
//!
//! A line `= NAME` begins an application, and a line `+ FILE` a file of it, whose lines follow. Behind the files stand the calls: a line
//! `> WORDS` is one; `* COUNT APP ROW` builds the application and runs its image with so many schedules of one row, with their numbers in the
//! place of `$`, of which each row that is told of them stands once. A line `# TEXT` says why.
//!
//! The row of a call counts the events of the trace and sums up its port writes. It ends with `same` where a list of moves that the checker of
//! runs takes for a run of the program shows these very events: boot and then handlers do what their bodies do, each handler enters where it
//! entered in the trace, and loads are answered by what was stored before.
#![tactic(auto)]

mod calls;
mod context;
mod memory;
mod mote_trace;
mod replay;
mod rows;
mod schedules;
mod session;
mod verdict;

use nm_base::NoMemory;
use session::Session;
use std::io::{self, BufRead, BufReader, Write};

fn main(rt: HostRuntime) -> io::Result<()> {
    let alloc = rt.alloc();
    let mut session = Session::new(alloc);
    for line in BufReader::new(alloc, rt.reader())?.lines(alloc) {
        let line = line?;
        match session.take(alloc, line.as_str()) {
            Ok(text) => io::writer(&rt).write_all(text.as_bytes())?,
            Err(NoMemory) => println!(rt; "no memory")?,
        }
    }
    Ok(())
}

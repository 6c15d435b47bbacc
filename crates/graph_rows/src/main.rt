//! Writes the graphs of worked programs, or why they are refused.
#![tactic(auto)]

mod programs;
mod rows;

use rows::row;
use std::io::{self, Write};

fn main(rt: HostRuntime) -> io::Result<()> {
    let alloc = rt.alloc();
    for place in 0..6 {
        match row(alloc, place) {
            Ok(Some(text)) => io::writer(&rt).write_all(text.as_slice())?,
            Ok(None) => {}
            Err(_) => println!(rt; "no memory")?,
        }
    }
    Ok(())
}

//! Calls every routine on the model of the processor, beside the arithmetic of the core language, and writes a line for each.
//!
//! The first line counts the words that begin an instruction.
#![tactic(auto)]

mod checks;
mod first_words;
mod mote;
mod operations;
mod rows;
mod tally;
mod wanted;

use checks::program;
use first_words::first_words;
use rows::row;
use std::io;

fn main(rt: HostRuntime) -> io::Result<()> {
    let alloc = rt.alloc();
    let (legal, illegal) = first_words();
    println!(rt; "first words: {legal} legal, {illegal} illegal")?;
    let Ok(code) = program(alloc) else {
        println!(rt; "no memory")?;
        return Ok(());
    };
    for place in 0..51 {
        match row(alloc, &code, place) {
            Ok((does, tally)) => println!(rt; "{place} {does}: {tally}")?,
            Err(_) => println!(rt; "{place} no image")?,
        }
    }
    Ok(())
}

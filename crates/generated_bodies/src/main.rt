//! Compares what generated bodies do in the source with what their lowered code does, and writes a line for each group of them.
#![tactic(auto)]

mod bodies;
mod builder;
mod compare;
mod exprs;
mod form;
mod groups;
mod node;
mod programs;
mod sketch;
mod stmts;
mod tally;

use form::{FORMS, NAMES};
use groups::{CHAIN, GROUPS, chain_outcome, group};
use std::io;
use tally::Tally;

fn main(rt: HostRuntime) -> io::Result<()> {
    let alloc = rt.alloc();
    let mut all = Tally::new();
    for number in 0..GROUPS {
        match group(alloc, number) {
            Ok(tally) => {
                println!(rt;
                    "group {number}: {} bodies, {} actions, {} refused, {} differ",
                    tally.bodies, tally.actions, tally.refused, tally.differ
                )?;
                all.add(&tally);
            }
            Err(_) => println!(rt; "group {number}: no memory")?,
        }
    }
    println!(rt;
        "{} bodies, {} actions, {} refused, {} differ",
        all.bodies, all.actions, all.refused, all.differ
    )?;
    for k in 0..FORMS {
        println!(rt; "{} bodies: {}", all.met[k], NAMES[k])?;
    }
    match chain_outcome(alloc) {
        Ok(outcome) => println!(rt;
            "chain of {CHAIN} calls: {} actions, same: {}",
            outcome.actions.len(),
            outcome.is_same
        )?,
        Err(_) => println!(rt; "chain: no memory")?,
    }
    Ok(())
}

//! A row for each routine.

ghost use Rattle.std.specs.Prelude.{◌+◌, ◌<◌, length};
ghost use Rattle.msp_checks.specs.Written.{HaveFewRuns};

use crate::checks::try_check;
use crate::mote::Mote;
use crate::operations::{operation_of, try_operation, try_return};
use crate::tally::Tally;
use mid_code::MidCode;
use nesc_core::BinOp;
use nm_base::{Fault, IntType};
use std::alloc::Global;
use std::fmt;

/// The place of the first check.
const FIRST_CHECK: u32 = 48;

/// What the routine of a place does.
#[derive(Drop)]
pub enum Does {
    Operation(BinOp, IntType),
    GivesBack,
    Checks(usize),
}

impl fmt::Display for Does {
    fn fmt<W: fmt::Write>(&self, f: &mut fmt::Formatter<W>) -> Result<(), fmt::Error> {
        match self {
            Does::Operation(op, t) => write!(f, "{op:?} {t:?}"),
            Does::GivesBack => write!(f, "no operation"),
            Does::Checks(runs) => write!(f, "check (runs: {runs})"),
        }
    }
}

/// What the routine of a place does, and how the calls of it ended.
pub fn row(alloc: Global, code: &MidCode, place: u32) -> Result<(Does, Tally), Fault>
    requires few { HaveFewRuns code.now.checks }
    requires place { place < 48 + length code.now.checks }
{
    let mut mote = Mote::load(alloc, code, place)?;
    if place < FIRST_CHECK {
        return Ok(operation_row(&mut mote, place));
    }
    let check = &code.checks.as_slice()[(place - FIRST_CHECK) as usize];
    let tally = try_check(alloc, &mut mote, check)?;
    Ok((Does::Checks(check.runs.as_slice().len()), tally))
}

fn operation_row(mote: &mut Mote, place: u32) -> (Does, Tally) {
    match operation_of(place) {
        Some((op, t)) => (Does::Operation(op, t), try_operation(mote, op, t)),
        None => (Does::GivesBack, try_return(mote)),
    }
}

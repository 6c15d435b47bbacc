//! The routines of checks of no run, of one and of 200, at the borders of their runs and at random addresses.

ghost use Rattle.std.specs.Prelude.{◌≡◌, ◌<◌, ◌≤◌, IfOk, length};
ghost use Rattle.msp_checks.specs.Written.{HaveFewRuns};

use crate::mote::Mote;
use crate::tally::Tally;
use mid_code::{Check, MidCode};
use nm_base::{List, NoMemory};
use rand_core::utils::NextWord;
use rand_pcg::Pcg32;
use std::alloc::Global;

/// How many runs the longest check has.
const MANY_RUNS: u16 = 200;

/// How many random addresses each check is called with.
const RANDOM_ADDRESSES: u32 = 200;

/// How many addresses there are.
const ADDRESSES: usize = 0x1_0000;

/// Checks of words that are nowhere, of structs of 10 bytes that stand in one row, and of structs of 6 bytes in many, some of which
/// have no part.
pub fn program(alloc: Global) -> Result<MidCode, NoMemory>
    ensures many { IfOk result (λ code. length code.checks ≡ 3) }
    ensures few { IfOk result (λ code. HaveFewRuns code.checks) }
{
    let mut one_run = Vec::new(alloc);
    one_run.push((0x1204, 7))?;
    let checks = vec![in alloc;
        check(2, Vec::new(alloc)),
        check(10, one_run),
        check(6, many_runs(alloc)?),
    ]?;
    Ok(MidCode {
        fns: List::new(Vec::new(alloc)),
        checks: List::new(checks),
    })
}

fn check(size: u16, runs: Vec<(u16, u16)>) -> Check
    ensures { result.runs ≡ runs.items }
{
    Check {
        size,
        runs: List::new(runs),
    }
}

fn many_runs(alloc: Global) -> Result<Vec<(u16, u16)>, NoMemory>
    ensures { IfOk result (λ runs. length runs.items ≡ 200) }
{
    let mut runs = Vec::new(alloc);
    for i in 0..MANY_RUNS {
        runs.push((0x1200 + 25 * i, i % 4))?;
    }
    Ok(runs)
}

/// Calls the routine of a check with addresses round the ends of its runs, and with random ones.
pub fn try_check(alloc: Global, mote: &mut Mote, check: &Check) -> Result<Tally, NoMemory> {
    let parts = parts_of(alloc, check)?;
    let mut tally = Tally::new();
    for run in check.runs.as_slice() {
        let end = run.0.wrapping_add(check.size.wrapping_mul(run.1));
        for address in [run.0, end.wrapping_sub(check.size), end] {
            try_address(mote, &mut tally, &parts, address.wrapping_sub(1));
            try_address(mote, &mut tally, &parts, address);
            try_address(mote, &mut tally, &parts, address.wrapping_add(1));
        }
    }
    let mut random = Pcg32::new(42, 54);
    for i in 0..RANDOM_ADDRESSES {
        let address = if i % 2 == 0 { 0x1200 } else { 0 };
        let offset = random.next_word() % if i % 2 == 0 { 0x2000 } else { 0x1_0000 };
        try_address(mote, &mut tally, &parts, (address + offset) as u16);
    }
    Ok(tally)
}

// For each address whether it is that of a part.
fn parts_of(alloc: Global, check: &Check) -> Result<Vec<bool>, NoMemory> {
    let mut parts = vec![in alloc; false; ADDRESSES]?;
    for run in check.runs.as_slice() {
        let mut address = usize::from(run.0);
        for _ in 0..run.1 {
            if let Some(part) = parts.get_mut(address) {
                *part = true;
            }
            address = address.wrapping_add(usize::from(check.size));
        }
    }
    Ok(parts)
}

fn try_address(mote: &mut Mote, tally: &mut Tally, parts: &[bool], address: u16) {
    let called = mote.call([address, 0x5A5A, 0x5A5B, 0x5A5C]);
    let is_part = parts.get(usize::from(address)).copied().unwrap_or(false);
    let is_right = if is_part {
        called.is_back && called.keeps
    } else {
        called.is_fault
    };
    tally.count(&called, is_right);
}

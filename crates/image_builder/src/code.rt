//! All code of a program's image, in order.

ghost use Rattle.std.specs.Prelude.{◌≡◌, ◌++◌, IfOk, OnOk, true};
ghost use Rattle.nesc_core.specs.View.{program_of};
ghost use Rattle.core_meaning.specs.SourceOf.{handler_in};
ghost use Rattle.lower_stmt.specs.Bodies.{lowered};
ghost use Rattle.select_emitter.specs.Code.{CanBeSelected, all_code};
ghost use Rattle.msp_checks.specs.Written.{HaveFewRuns};
ghost use Rattle.msp_routines.specs.Routines.{routine_fns};
ghost use Rattle.program_image.specs.Order.{pieces_of};
ghost use Rattle.image_code.specs.Code.{code_of};
ghost use Rattle.image_code.specs.Laws.{CanBeChecked, IsCompilable};

use code_pieces::{handler_code, reset_code};
use mid_code::{Check, MidCode};
use msp_isa::CodeFn;
use msp_routines::routines_of;
use nesc_core::Program;
use nm_base::NoMemory;
use select_emitter::select;
use std::alloc::Global;
use stmt_emitter::lower;

/// The lines of the mote.
const LINES: u8 = 8;

/// More runs of parts than the mote's memory has room for.
const MOST_RUNS: usize = 0x100_0000;

/// The code of a program: the functions of its bodies, the routines, and the code of reset and of the lines.
pub(crate) fn code_of(alloc: Global, p: &Program) -> Result<Vec<CodeFn>, NoMemory>
    requires { IsCompilable (program_of p.now) }
    ensures code { IfOk result (λ code. code.items ≡ code_of (program_of p.now)) }
    ensures checks { IfOk result (λ code. CanBeChecked (lowered (program_of p.now)).checks) }
{
    let middle = lower(alloc, p)?;
    let mut code = select(alloc, &middle)?;
    add_routines(alloc, &mut code, &middle)?;
    add_pieces(alloc, &mut code, p)?;
    Ok(code)
}

fn has_few_runs(checks: &[Check]) -> bool
    ensures { result ≡ true → HaveFewRuns checks.now }
{
    checks
        .iter()
        .all(|check| check.runs.as_slice().len() <= MOST_RUNS)
}

/// The routines of operations and of the checks.
pub fn add_routines(alloc: Global, code: &mut Vec<CodeFn>, middle: &MidCode) -> Result<(), NoMemory>
    ensures code { OnOk result (code.new.items ≡ code.old.items ++ routine_fns middle.now.checks) }
    ensures checks { OnOk result (CanBeChecked middle.now.checks) }
{
    if !has_few_runs(middle.checks.as_slice()) {
        return Err(NoMemory);
    }
    let mut more = routines_of(alloc, middle)?;
    code.append(&mut more)?;
    Ok(())
}

// The code of reset, and that of each line.
fn add_pieces(alloc: Global, code: &mut Vec<CodeFn>, p: &Program) -> Result<(), NoMemory>
    ensures { OnOk result (code.new.items ≡ code.old.items ++ pieces_of (program_of p.now)) }
{
    code.push(reset_code(alloc, p.boot)?)?;
    for line in 0..LINES {
        code.push(handler_code(alloc, line, handler_of(p.handlers.as_slice(), line))?)?;
    }
    Ok(())
}

/// The body of the first handler of a line.
pub fn handler_of(handlers: &[(u8, u32)], line: u8) -> Option<u32>
    ensures { result ≡ handler_in handlers.now line }
{
    let mut rest = handlers;
    while let [(own, body), others @ ..] = rest {
        if *own == line {
            return Some(*body);
        }
        rest = others;
    }
    None
}

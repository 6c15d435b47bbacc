//! The routines of operations and of checks.

ghost use Rattle.std.specs.Prelude.{◌≡◌, IfOk};
ghost use Rattle.msp_checks.specs.Written.{AreOfWords, HaveFewRuns};
ghost use Rattle.msp_routines.specs.Routines.{routine_fns};

use mid_code::MidCode;
use msp_checks::check_routines;
use msp_isa::CodeFn;
use msp_runtime::operation_routines;
use nm_base::NoMemory;
use std::alloc::Global;

/// The routines that compiled code calls: at place h below 48 that of operation h, and at place 48 + k that of check k.
///
/// Errors: `NoMemory` alone.
pub fn routines_of(alloc: Global, code: &MidCode) -> Result<Vec<CodeFn>, NoMemory>
    requires { HaveFewRuns code.now.checks }
    ensures code { IfOk result (λ fns. fns.items ≡ routine_fns code.now.checks) }
    ensures words { IfOk result (λ fns. AreOfWords code.now.checks) }
{
    let mut fns = operation_routines(alloc)?;
    let mut checks = check_routines(alloc, code.checks.as_slice())?;
    fns.append(&mut checks)?;
    Ok(fns)
}

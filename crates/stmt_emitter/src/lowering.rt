//! A whole program lowered.

ghost use Rattle.std.specs.Prelude.{◌≡◌, ◌++◌, ◌∷◌, [], IfOk, OnOk, map};
ghost use Rattle.lower_expr.specs.Code as expressions;
ghost use Rattle.lower_form.specs.Short.{IsShort};
ghost use Rattle.lower_stmt.specs.Bodies as bodies;
ghost use Rattle.lower_stmt.specs.Bodies.{lowered};
ghost use Rattle.mid_code.specs.Form.{IsMidCode};
ghost use Rattle.nesc_core.specs.Parts.{run_of};
ghost use Rattle.nesc_core.specs.Plain.{pointer};
ghost use Rattle.nesc_core.specs.Size.{AreSized, IsSized, layout_of};
ghost use Rattle.nesc_core.specs.Typing.{PointsWell};
ghost use Rattle.nesc_core.specs.View.{program_of, structs_of, type_of};
ghost use Rattle.nesc_core.specs.WellFormed.{IsWellFormed};

use crate::bodies::lower_body;
use crate::checks::checks_of;
use mid_code::{Check, MidCode};
use nesc_core::{CoreType, Program, Structs, ranges};
use nm_base::{List, NoMemory};
use std::alloc::Global;

// No type is larger than 32,767 bytes.
fn short_size(s: &Structs, t: &CoreType) -> u16
    requires structs { AreSized (structs_of s.now) }
    requires sized { IsSized (structs_of s.now) (type_of t.now) }
    ensures { result ≡ (layout_of (structs_of s.now) (type_of t.now)).size }
{
    nesc_core::size(s, t) as u16
}

// The check that an address is one of a part of this type.
#[tactic(auto, using(crate::proofs::Items::runs_back))]
fn check_for(alloc: Global, p: &Program, t: &CoreType) -> Result<Check, NoMemory>
    requires program { IsWellFormed (program_of p.now) }
    requires pointed { PointsWell (program_of p.now).structs (pointer (type_of t.now)) }
    ensures { IfOk result (λ c. c ≡ expressions.check_for (program_of p.now) (type_of t.now)) }
{
    let size = short_size(&p.structs, t);
    let runs = ranges(alloc, p, t)?;
    Ok(Check {
        size,
        runs: List::new(runs),
    })
}

fn add_check(checks: &mut Vec<Check>, check: Check) -> Result<(), NoMemory>
    ensures { OnOk result (checks.new.items ≡ checks.old.items ++ check ∷ []) }
{
    checks.push(check)?;
    Ok(())
}

// The checks of a program, whose types are these.
fn checks_for(alloc: Global, p: &Program, types: &[CoreType]) -> Result<Vec<Check>, NoMemory>
    requires program { IsWellFormed (program_of p.now) }
    requires types { map type_of types.now ≡ bodies.checks_of (program_of p.now) }
    ensures { IfOk result (λ v. v.items ≡ map (expressions.check_for (program_of p.now)) (bodies.checks_of (program_of p.now))) }
{
    let mut checks = Vec::new(alloc);
    for t in types {
        let check = check_for(alloc, p, t)?;
        add_check(&mut checks, check)?;
    }
    Ok(checks)
}

// The code of a program, as its definition gives it.
fn lowered_code(alloc: Global, p: &Program) -> Result<MidCode, NoMemory>
    requires program { IsWellFormed (program_of p.now) }
    requires short { IsShort (program_of p.now) }
    ensures { IfOk result (λ c. c ≡ lowered (program_of p.now)) }
{
    let types = checks_of(alloc, p)?;
    let mut fns = Vec::new(alloc);
    for body in p.bodies.as_slice() {
        fns.push(lower_body(alloc, p, types.as_slice(), body)?)?;
    }
    let checks = checks_for(alloc, p, types.as_slice())?;
    Ok(MidCode {
        fns: List::new(fns),
        checks: List::new(checks),
    })
}

/// A program lowered: function k is body k, and the checks are those of the types that bodies dereference, in the order of their
/// first dereference. `is_short` of lower_form tells whether a program is short.
pub fn lower(alloc: Global, p: &Program) -> Result<MidCode, NoMemory>
    requires program { IsWellFormed (program_of p.now) }
    requires short { IsShort (program_of p.now) }
    ensures code { IfOk result (λ c. c ≡ lowered (program_of p.now)) }
    ensures form { IfOk result IsMidCode }
{
    let code = lowered_code(alloc, p)?;
    Ok(code)
}

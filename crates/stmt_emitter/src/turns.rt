//! The test and the step of a loop.

ghost use Rattle.std.specs.Prelude.{◌≡◌, ◌∷◌, [], ◌++◌, ◌+◌, ◌*◌, ◌<◌, ◌^◌, max, IfOk, OnOk};
ghost use Rattle.expr_emitter.specs.Scoped.{expr_in, held_in, locals_in, program_in};
ghost use Rattle.expr_emitter.specs.Sizes.{HasSizes};
ghost use Rattle.lower_expr.specs.Code.{labels};
ghost use Rattle.lower_stmt.specs.Code.{maybe_labels};
ghost use Rattle.mid_code.specs.declared.instr.Mid.TheVariants as mid;
ghost use Rattle.nesc_core.specs.View.{expr_of, maybe_expr_of};
ghost use Rattle.nesc_core.specs.Weights.{expr_levels, maybe_levels};
ghost use Rattle.stmt_emitter.specs.Located.{step_in};
ghost use Rattle.stmt_emitter.specs.Standing.{IsPlaced, MaybeHasSizes};

use crate::put::put_all;
use expr_emitter::put::put;
use expr_emitter::{Scope, emit_expr};
use mid_code::Mid;
use nesc_core::CoreExpr;
use nm_base::{IntType, NoMemory};
use std::alloc::Global;

/// A turn begins at the loop's first label.
pub(crate) fn begin_turn(code: &mut Vec<Mid>, l: u32) -> Result<(), NoMemory>
    ensures { OnOk result (code.new.items ≡ code.old.items ++ mid.Label l ∷ mid.Tick ∷ []) }
{
    put(code, Mid::Label(l))?;
    put(code, Mid::Tick)
}

/// The step, to which a continue leads, and the way to the next turn; behind it is the loop's end.
pub(crate) fn end_turn(code: &mut Vec<Mid>, step: Vec<Mid>, l: u32) -> Result<(), NoMemory>
    requires { l + 2 < 2 ^ 32 }
    ensures { OnOk result (code.new.items ≡ code.old.items ++ mid.Label (l + 2) ∷ (step.items ++ mid.Jump l ∷ mid.Label (l + 1) ∷ [])) }
{
    put(code, Mid::Label(l + 2))?;
    put_all(code, step)?;
    put(code, Mid::Jump(l))?;
    put(code, Mid::Label(l + 1))
}

// The step of a loop.
fn emit_step<'a>(
    alloc: Global,
    scope: &Scope<'a>,
    base: u32,
    step: &'a Option<CoreExpr>,
    next: &mut u32,
    code: &mut Vec<Mid>,
) -> Result<(), NoMemory>
    requires placed { IsPlaced scope.now }
    requires sizes { MaybeHasSizes (program_in scope.now) (locals_in scope.now) (maybe_expr_of step.now) }
    requires labels { next.old + maybe_labels (maybe_expr_of step.now) < 2 ^ 32 }
    requires values { base + (2 * maybe_levels (maybe_expr_of step.now) + 8) < 2 ^ 32 }
    ensures code { OnOk result (code.new.items ≡ code.old.items ++ step_in scope.now base (maybe_expr_of step.now) next.old) }
    ensures next { OnOk result (next.new ≡ next.old + maybe_labels (maybe_expr_of step.now)) }
{
    match step {
        None => Ok(()),
        Some(e) => {
            emit_expr(alloc, scope, e, base, next, code)?;
            Ok(())
        }
    }
}

/// The code of a loop's test and step, which take their labels before the body, and the first of the loop's own labels.
#[derive(Drop)]
pub(crate) struct Turn {
    pub(crate) label: u32,
    pub(crate) of: IntType,
    pub(crate) test: Vec<Mid>,
    pub(crate) step: Vec<Mid>,
}

/// The code of a loop's test and step.
pub(crate) fn emit_turn<'a>(
    alloc: Global,
    scope: &Scope<'a>,
    base: u32,
    test: &'a CoreExpr,
    step: &'a Option<CoreExpr>,
    next: &mut u32,
) -> Result<Turn, NoMemory>
    requires placed { IsPlaced scope.now }
    requires test { HasSizes (program_in scope.now) (locals_in scope.now) (expr_of test.now) }
    requires step { MaybeHasSizes (program_in scope.now) (locals_in scope.now) (maybe_expr_of step.now) }
    requires labels { next.old + (3 + labels (expr_of test.now) + maybe_labels (maybe_expr_of step.now)) < 2 ^ 32 }
    requires values { base + (2 * max (expr_levels (expr_of test.now)) (maybe_levels (maybe_expr_of step.now)) + 8) < 2 ^ 32 }
    ensures next { OnOk result (next.new ≡ next.old + (3 + labels (expr_of test.now) + maybe_labels (maybe_expr_of step.now))) }
    ensures label { IfOk result (λ t. t.label ≡ next.old) }
    ensures of { IfOk result (λ t. t.of ≡ held_in scope.now (expr_of test.now)) }
    ensures test { IfOk result (λ t. t.test.items ≡ expr_in scope.now (expr_of test.now) base (next.old + 3)) }
    ensures step { IfOk result (λ t. t.step.items ≡ step_in scope.now base (maybe_expr_of step.now) (next.old + 3 + labels (expr_of test.now))) }
{
    let label = *next;
    *next += 3;
    let mut tested = Vec::new(alloc);
    let of = emit_expr(alloc, scope, test, base, next, &mut tested)?;
    let mut stepped = Vec::new(alloc);
    emit_step(alloc, scope, base, step, next, &mut stepped)?;
    Ok(Turn {
        label,
        of,
        test: tested,
        step: stepped,
    })
}

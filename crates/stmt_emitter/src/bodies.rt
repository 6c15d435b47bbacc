//! Bodies as functions of the middle code.

ghost use Rattle.std.specs.Prelude.{◌≡◌, ◌+◌, ◌*◌, ◌<◌, ◌≤◌, ◌^◌, IfOk, length, map, take};
ghost use Rattle.expr_emitter.specs.Scoped.{locals_in, program_in};
ghost use Rattle.lower_stmt.specs.Bodies as bodies;
ghost use Rattle.lower_stmt.specs.Bodies.{all_bytes, all_values, mid_fn_of, params_from};
ghost use Rattle.lower_stmt.specs.Code.{stmt_labels};
ghost use Rattle.nesc_core.specs.View.{body_of, program_of, stmt_of, type_of};
ghost use Rattle.nesc_core.specs.Weights as weights;
ghost use Rattle.nesc_core.specs.WellFormed.{IsBody, IsWellFormed};
ghost use Rattle.stmt_emitter.specs.Standing.{IsPlaced, StmtFits, ways_seen};
ghost use Rattle.stmt_emitter.specs.Wholes.{ways_from, whole_in};

use crate::levels::{stmt_atomics, stmt_levels};
use crate::put::put_nothing;
use crate::spots::{Spots, params_of, spots_of};
use crate::statements::emit_stmt;
use crate::ways::{Ways, taken_at};
use expr_emitter::Scope;
use expr_emitter::put::put;
use mid_code::{Mid, MidFn};
use nesc_core::{Body, CoreStmt, CoreType, Program};
use nm_base::{List, NoMemory};
use std::alloc::Global;

fn outer_ways(gives: &CoreType, status: u16) -> Ways
    ensures seen { ways_seen result ≡ ways_from (type_of gives.now) status }
{
    Ways {
        gives: Some(gives),
        return_to: None,
        break_to: 0,
        continue_to: 0,
        status,
    }
}

// The code of a body that gives this type, where values from `base` on are free, and the first Begin saves the status at `status`.
fn whole_code(
    alloc: Global,
    scope: &Scope,
    base: u32,
    status: u16,
    s: &CoreStmt,
    gives: &CoreType,
) -> Result<Vec<Mid>, NoMemory>
    requires placed { IsPlaced scope.now }
    requires fits { StmtFits (program_in scope.now) (locals_in scope.now) (stmt_of s.now) }
    requires labels { stmt_labels (stmt_of s.now) < 2 ^ 32 }
    requires values { base + (2 * weights.stmt_levels (stmt_of s.now) + 8) < 2 ^ 32 }
    requires status { status + 2 * weights.stmt_atomics (stmt_of s.now) ≤ 65535 }
    ensures { IfOk result (λ v. v.items ≡ whole_in scope.now base status (stmt_of s.now) (type_of gives.now)) }
{
    let mut code = Vec::new(alloc);
    let mut next = 0;
    emit_stmt(
        alloc,
        scope,
        base,
        s,
        outer_ways(gives, status),
        &mut next,
        &mut code,
    )?;
    put_nothing(&mut code, Some(gives), base + 2)?;
    let taken = taken_at(alloc, Some(gives), base + 2)?;
    put(&mut code, Mid::Ret(List::new(taken)))?;
    Ok(code)
}

// The values of a body's parameters.
#[tactic(auto, using(crate::proofs::Placed::take_values, crate::proofs::Placed::take_types))]
fn params_in(alloc: Global, b: &Body) -> Result<Vec<u32>, NoMemory>
    requires params { b.now.params ≤ length b.now.locals }
    requires values { all_values (map type_of b.now.locals) + 1 < 2 ^ 32 }
    ensures { IfOk result (λ v. v.items ≡ params_from (take b.now.params (map type_of b.now.locals)) 0) }
{
    params_of(alloc, &b.locals.as_slice()[..b.params as usize])
}

// How many values a function has whose locals take so many.
fn values_in(base: u32, s: &CoreStmt) -> u32
    requires { base + (2 * weights.stmt_levels (stmt_of s.now) + 8) < 2 ^ 16 }
    ensures { result ≡ base + 2 * weights.stmt_levels (stmt_of s.now) + 8 }
{
    base + 2 * stmt_levels(s) + 8
}

// How large a frame is whose locals take so many bytes.
fn frame_in(bytes: u16, s: &CoreStmt) -> u16
    requires { bytes + 2 * weights.stmt_atomics (stmt_of s.now) ≤ 65535 }
    ensures { result ≡ bytes + 2 * weights.stmt_atomics (stmt_of s.now) }
{
    bytes + 2 * stmt_atomics(s)
}

// Where the locals of a well-formed body are held.
fn body_spots(alloc: Global, p: &Program, b: &Body) -> Result<Spots, NoMemory>
    requires program { IsWellFormed (program_of p.now) }
    requires body { IsBody (program_of p.now) (body_of b.now) }
    ensures spots { IfOk result (λ s. s.spots.items ≡ bodies.spots_of (program_of p.now) (body_of b.now)) }
    ensures values { IfOk result (λ s. s.values ≡ bodies.base_of (body_of b.now)) }
    ensures bytes { IfOk result (λ s. s.bytes ≡ all_bytes (program_of p.now) (body_of b.now).locals) }
{
    spots_of(alloc, p, b.locals.as_slice())
}

/// The function of a body. The checks are the types that the program's bodies dereference.
pub(crate) fn lower_body(
    alloc: Global,
    p: &Program,
    checks: &[CoreType],
    b: &Body,
) -> Result<MidFn, NoMemory>
    requires program { IsWellFormed (program_of p.now) }
    requires body { IsBody (program_of p.now) (body_of b.now) }
    requires checks { length checks.now < 2 ^ 31 }
    requires labels { stmt_labels (stmt_of b.now.code) < 2 ^ 32 }
    ensures { IfOk result (λ f. f ≡ mid_fn_of (program_of p.now) (map type_of checks.now) (body_of b.now)) }
{
    let held = body_spots(alloc, p, b)?;
    let scope = Scope {
        program: p,
        checks,
        locals: b.locals.as_slice(),
        spots: held.spots.as_slice(),
    };
    let code = whole_code(alloc, &scope, held.values, held.bytes, &b.code, &b.result)?;
    let params = params_in(alloc, b)?;
    Ok(MidFn {
        values: values_in(held.values, &b.code),
        params: List::new(params),
        frame: frame_in(held.bytes, &b.code),
        code: List::new(code),
    })
}

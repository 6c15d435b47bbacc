//! Which bodies are those of a program.

ghost use Rattle.std.specs.Prelude.{◌≡◌, ◌≤◌, ◌+◌, ◌*◌, IfSome, [], length, map, sum_by, take, true};
ghost use Rattle.nesc_core.specs.Heres as heres;
ghost use Rattle.nesc_core.specs.Size.{layout_of};
ghost use Rattle.nesc_core.specs.Typing.{IsScalar, IsType};
ghost use Rattle.nesc_core.specs.View.{body_of, program_of, stmt_of, stmts_of, structs_of, type_of};
ghost use Rattle.nesc_core.specs.Weights.{even, frame_weight, stmt_atomics};
ghost use Rattle.nesc_core.specs.WellFormed.{IsBody, greatest_frame};
ghost use Rattle.well_formed.specs.Formed.{Each};
ghost use Rattle.well_formed.specs.Laid.{AreLaid};

use crate::exprs::parameters;
use crate::measure::{MOST_DEPTH, MOST_NODES, left_by_atomics, stmt};
use crate::scope::Scope;
use crate::stmts::is_stmt;
use crate::types::{is_result, is_scalar, is_type, size};
use crate::ways::by_return;
use nesc_core::{Body, CoreStmt, CoreType, Layout, Program, Structs};
use nm_base::List;

/// The most bytes that a frame weighs.
const MOST_FRAME: u32 = 10_020;

/// The bytes of each frame beside those of locals, levels and atomic statements.
const FRAME: u32 = 40;

fn are_scalars(types: &[CoreType]) -> bool
    ensures { result ≡ true → Each IsScalar (map type_of types.now) }
{
    for t in types {
        if !is_scalar(t) {
            return false;
        }
    }
    true
}

fn are_types(s: &Structs, layouts: &[Layout], types: &[CoreType]) -> bool
    requires { AreLaid (structs_of s.now) layouts.now }
    ensures { result ≡ true → Each (IsType (structs_of s.now)) (map type_of types.now) }
{
    for t in types {
        if !is_type(s, layouts, t) {
            return false;
        }
    }
    true
}

// What is left of so many bytes behind locals, each at an even place.
fn left_by_locals(s: &Structs, layouts: &[Layout], types: &[CoreType], left: u32) -> Option<u32>
    requires { AreLaid (structs_of s.now) layouts.now }
    ensures { IfSome result (λ rest. sum_by (λ t. even (layout_of (structs_of s.now) t).size) (map type_of types.now) + rest ≤ left) }
{
    let mut left = left;
    for t in types {
        left = left_by_local(s, layouts, t, left)?;
    }
    Some(left)
}

fn left_by_local(s: &Structs, layouts: &[Layout], t: &CoreType, left: u32) -> Option<u32>
    requires { AreLaid (structs_of s.now) layouts.now }
    ensures { IfSome result (λ rest. even (layout_of (structs_of s.now) (type_of t.now)).size + rest ≤ left) }
{
    let bytes = size(s, layouts, t)?;
    left.checked_sub(bytes)?.checked_sub(bytes % 2)
}

// What is left of so many bytes behind a body's locals and atomic statements.
fn left_by_parts(p: &Program, layouts: &[Layout], b: &Body) -> Option<u32>
    requires { AreLaid (structs_of p.now.structs) layouts.now }
    ensures { IfSome result (λ rest. sum_by (λ t. even (layout_of (program_of p.now).structs t).size) (body_of b.now).locals + 2 * stmt_atomics (body_of b.now).code + rest + 40 ≤ greatest_frame) }
{
    let left = left_by_locals(&p.structs, layouts, b.locals.as_slice(), MOST_FRAME - FRAME)?;
    left_by_atomics(&b.code, MOST_DEPTH, left)
}

// Whether the frame of a body weighs little enough.
fn has_small_frame(p: &Program, layouts: &[Layout], b: &Body) -> bool
    requires { AreLaid (structs_of p.now.structs) layouts.now }
    ensures { result ≡ true → frame_weight (program_of p.now) (body_of b.now) ≤ greatest_frame }
{
    match left_by_parts(p, layouts, b) {
        Some(left) => stmt(&b.code, MOST_DEPTH, left / 4, MOST_NODES).is_some(),
        None => false,
    }
}

// Whether a statement has no inlined call.
#[cycle(plain)]
fn is_plain(s: &CoreStmt) -> bool
    ensures { result ≡ true → heres.heres (stmt_of s.now) [] ≡ [] }
{
    match s {
        CoreStmt::Block(list) | CoreStmt::Switch(_, _, list) => are_plain(list),
        CoreStmt::If(_, a, b) => is_plain(a) && is_plain(b),
        CoreStmt::Loop { body, .. } => is_plain(body),
        CoreStmt::Atomic(body) => is_plain(body),
        CoreStmt::Eval(_)
        | CoreStmt::Break
        | CoreStmt::Continue
        | CoreStmt::Return(_)
        | CoreStmt::Clear(_) => true,
        CoreStmt::Here { .. } => false,
    }
}

#[cycle(plain)]
fn are_plain(list: &List<CoreStmt>) -> bool
    ensures { result ≡ true → heres.all_heres (stmts_of list.now) ≡ [] }
{
    for s in list.as_slice() {
        if !is_plain(s) {
            return false;
        }
    }
    true
}

/// Whether a body is one of this program.
#[tactic(auto, using(crate::proofs::FormedBody::formed))]
pub(crate) fn is_body(p: &Program, layouts: &[Layout], b: &Body) -> bool
    requires { AreLaid (structs_of p.now.structs) layouts.now }
    ensures { result ≡ true → IsBody (program_of p.now) (body_of b.now) }
{
    let scope = Scope {
        program: p,
        layouts,
        locals: b.locals.as_slice(),
    };
    has_parameters(b)
        && are_types(&p.structs, layouts, b.locals.as_slice())
        && is_type(&p.structs, layouts, &b.result)
        && is_result(&b.result)
        && has_small_frame(p, layouts, b)
        && is_plain(&b.code)
        && is_stmt(&scope, &b.code, by_return(Some(&b.result)))
}

// Whether the parameters are numbers and pointers.
fn has_parameters(b: &Body) -> bool
    ensures params { result ≡ true → (body_of b.now).params ≤ length (body_of b.now).locals }
    ensures passed { result ≡ true → Each IsScalar (take (body_of b.now).params (body_of b.now).locals) }
{
    match parameters(b) {
        Some(types) => are_scalars(types),
        None => false,
    }
}

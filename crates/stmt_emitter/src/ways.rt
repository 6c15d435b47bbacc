//! Ways out of a statement.

ghost use Rattle.std.specs.Prelude.{◌≡◌, ◌∷◌, [], ◌++◌, ◌+◌, ◌*◌, ◌<◌, ◌≤◌, ◌^◌, OnOk, IfOk, Some, option_copied};
ghost use Rattle.lower_stmt.specs.Code as spec;
ghost use Rattle.lower_stmt.specs.Code.{back, exit_code, exits_code, way_out};
ghost use Rattle.lower_expr.specs.Code as expressions;
ghost use Rattle.nesc_core.specs.PlaceTypes.{type_in};
ghost use Rattle.nesc_core.specs.View.{stmt_of};
ghost use Rattle.stmt_emitter.specs.Standing.{out_seen, ways_seen};

use crate::leads::leads;
use expr_emitter::numbers::is_wide;
use expr_emitter::put::put;
use expr_emitter::types::{is_void, number_of};
use mid_code::Mid;
use nesc_core::{CoreStmt, CoreType};
use nm_base::{List, NoMemory};
use std::alloc::Global;

/// How a statement may be left before its end.
#[derive(Clone, Copy)]
pub(crate) enum WayOut {
    Returning,
    Breaking,
    Continuing,
}

/// What a return gives; the labels that a return, a break and a continue lead to, where a return without one leads back to the
/// caller. The next Begin saves the status at `status`.
#[derive(Clone, Copy)]
pub(crate) struct Ways<'a> {
    pub(crate) gives: Option<&'a CoreType>,
    pub(crate) return_to: Option<u32>,
    pub(crate) break_to: u32,
    pub(crate) continue_to: u32,
    pub(crate) status: u16,
}

/// In an atomic statement, whose exits are at `l`, `l + 2` and `l + 4`.
pub(crate) fn in_atomic<'a>(w: Ways<'a>, l: u32) -> Ways<'a>
    requires room { w.status + 2 ≤ 65535 }
    requires labels { l + 4 < 2 ^ 32 }
    ensures seen { ways_seen result ≡ spec.in_atomic l (ways_seen w.entry) }
{
    Ways {
        gives: w.gives,
        return_to: Some(l),
        break_to: l + 2,
        continue_to: l + 4,
        status: w.status + 2,
    }
}

/// In a loop.
pub(crate) fn in_loop<'a>(w: Ways<'a>, out: u32, next: u32) -> Ways<'a>
    ensures seen { ways_seen result ≡ spec.in_loop out next (ways_seen w.entry) }
{
    Ways {
        gives: w.gives,
        return_to: w.return_to,
        break_to: out,
        continue_to: next,
        status: w.status,
    }
}

/// In a switch.
pub(crate) fn in_switch<'a>(w: Ways<'a>, out: u32) -> Ways<'a>
    ensures seen { ways_seen result ≡ spec.in_switch out (ways_seen w.entry) }
{
    Ways {
        gives: w.gives,
        return_to: w.return_to,
        break_to: out,
        continue_to: w.continue_to,
        status: w.status,
    }
}

/// In an inlined call that gives a value of this type.
pub(crate) fn in_here<'a>(w: Ways<'a>, out: u32, gives: Option<&'a CoreType>) -> Ways<'a>
    ensures seen { ways_seen result ≡ spec.in_here out (type_in (option_copied gives.entry)) (ways_seen w.entry) }
{
    Ways {
        gives,
        return_to: Some(out),
        break_to: out,
        continue_to: out,
        status: w.status,
    }
}

/// The values that take a result of this type.
pub(crate) fn taken_at(alloc: Global, t: Option<&CoreType>, r: u32) -> Result<Vec<u32>, NoMemory>
    requires { r + 1 < 2 ^ 32 }
    ensures { IfOk result (λ v. v.items ≡ expressions.taken_at (type_in (option_copied t.entry)) r) }
{
    if is_void(t) {
        Ok(Vec::new(alloc))
    } else if is_wide(number_of(t)) {
        Ok(Vec::from_array(alloc, [r, r + 1])?)
    } else {
        Ok(Vec::from_array(alloc, [r])?)
    }
}

// Back to the caller, or to a label, with a value of this type at `r`.
fn put_back(
    alloc: Global,
    code: &mut Vec<Mid>,
    to: Option<u32>,
    t: Option<&CoreType>,
    r: u32,
) -> Result<(), NoMemory>
    requires { r + 1 < 2 ^ 32 }
    ensures { OnOk result (code.new.items ≡ code.old.items ++ back to (type_in (option_copied t.entry)) r ∷ []) }
{
    match to {
        None => {
            let taken = taken_at(alloc, t, r)?;
            put(code, Mid::Ret(List::new(taken)))
        }
        Some(l) => put(code, Mid::Jump(l)),
    }
}

/// A way out of a statement, with a value that is returned at `r`.
pub(crate) fn put_way_out(
    alloc: Global,
    code: &mut Vec<Mid>,
    w: Ways,
    r: u32,
    out: WayOut,
) -> Result<(), NoMemory>
    requires { r + 1 < 2 ^ 32 }
    ensures { OnOk result (code.new.items ≡ code.old.items ++ way_out (ways_seen w.entry) r (out_seen out) ∷ []) }
{
    match out {
        WayOut::Returning => put_back(alloc, code, w.return_to, w.gives, r),
        WayOut::Breaking => put(code, Mid::Jump(w.break_to)),
        WayOut::Continuing => put(code, Mid::Jump(w.continue_to)),
    }
}

// An exit at `l` of an atomic statement, where there is one; what comes from the end of the statement jumps over it.
fn put_exit(
    alloc: Global,
    code: &mut Vec<Mid>,
    there: bool,
    w: Ways,
    r: u32,
    l: u32,
    out: WayOut,
) -> Result<(), NoMemory>
    requires value { r + 1 < 2 ^ 32 }
    requires label { l + 1 < 2 ^ 32 }
    ensures { OnOk result (code.new.items ≡ code.old.items ++ exit_code there w.entry.status l (way_out (ways_seen w.entry) r (out_seen out))) }
{
    if there {
        put(code, Mid::Jump(l + 1))?;
        put(code, Mid::Label(l))?;
        put(code, Mid::End(w.status))?;
        put_way_out(alloc, code, w, r, out)?;
        put(code, Mid::Label(l + 1))
    } else {
        Ok(())
    }
}

/// The exits of an atomic statement that it has, from `l` on.
pub(crate) fn put_exits(
    alloc: Global,
    code: &mut Vec<Mid>,
    s: &CoreStmt,
    w: Ways,
    r: u32,
    l: u32,
) -> Result<(), NoMemory>
    requires value { r + 1 < 2 ^ 32 }
    requires labels { l + 5 < 2 ^ 32 }
    ensures { OnOk result (code.new.items ≡ code.old.items ++ exits_code (spec.leads (stmt_of s.now)) (ways_seen w.entry) r l) }
{
    put_exit(
        alloc,
        code,
        leads(s, WayOut::Returning),
        w,
        r,
        l,
        WayOut::Returning,
    )?;
    put_exit(
        alloc,
        code,
        leads(s, WayOut::Breaking),
        w,
        r,
        l + 2,
        WayOut::Breaking,
    )?;
    put_exit(
        alloc,
        code,
        leads(s, WayOut::Continuing),
        w,
        r,
        l + 4,
        WayOut::Continuing,
    )
}

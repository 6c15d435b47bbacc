//! What stands behind the parts of a form: checks, calls and updates.

ghost use Rattle.std.specs.Prelude.{◌≡◌, [], ◌∷◌, ◌++◌, ◌+◌, ◌-◌, ◌<◌, ◌^◌, IfOk, OnOk, option_copied, if◌then◌else◌};
ghost use Rattle.expr_emitter.specs.Kinds.{kind_seen};
ghost use Rattle.expr_emitter.specs.Scoped.{update_code};
ghost use Rattle.lower_expr.specs.Code as spec;
ghost use Rattle.lower_expr.specs.Pieces.{fit_code, move_code};
ghost use Rattle.nm_base.specs.declared.int_type.IntType.TheVariants as types;
ghost use Rattle.mid_code.specs.Help as help;
ghost use Rattle.mid_code.specs.Help.{first_check};
ghost use Rattle.mid_code.specs.declared.instr.Mid.TheVariants as mid;
ghost use Rattle.nesc_core.specs.PlaceTypes.{type_in};

use crate::accesses::put_in_place;
use crate::conversions::{put_convert, put_fit, put_move};
use crate::kinds::Kind;
use crate::numbers::is_wide;
use crate::operators::put_binary;
use crate::put::{put, values_at};
use crate::types::{is_void, number_of};
use mid_code::{FIRST_CHECK, Mid};
use nesc_core::{BinOp, CoreType};
use nm_base::{IntType, List, NoMemory};
use std::alloc::Global;

/// The address in `r` is checked to be that of a part.
pub(crate) fn put_check(
    alloc: Global,
    code: &mut Vec<Mid>,
    check: u32,
    r: u32,
) -> Result<(), NoMemory>
    requires { check < 2 ^ 32 - 64 }
    ensures { OnOk result (code.new.items ≡ code.old.items ++ mid.Help (first_check + check) (r ∷ []) [] ∷ []) }
{
    let passed = Vec::from_array(alloc, [r])?;
    put(
        code,
        Mid::Help(
            FIRST_CHECK + check,
            List::new(passed),
            List::new(Vec::new(alloc)),
        ),
    )
}

// The values that take a result of this type.
fn taken_at(alloc: Global, t: Option<&CoreType>, r: u32) -> Result<Vec<u32>, NoMemory>
    requires { r + 1 < 2 ^ 32 }
    ensures { IfOk result (λ v. v.items ≡ spec.taken_at (type_in (option_copied t.entry)) r) }
{
    if is_void(t) {
        Ok(Vec::new(alloc))
    } else {
        values_at(alloc, is_wide(number_of(t)), r)
    }
}

/// A call of a function that has this result, which comes to `r`.
pub(crate) fn put_call(
    alloc: Global,
    code: &mut Vec<Mid>,
    f: u32,
    passed: Vec<u32>,
    result_type: Option<&CoreType>,
    r: u32,
) -> Result<(), NoMemory>
    requires { r + 1 < 2 ^ 32 }
    ensures { OnOk result (code.new.items ≡ code.old.items ++ mid.Tick ∷ mid.Call f passed.items (spec.taken_at (type_in (option_copied result_type.entry)) r) ∷ mid.Tick ∷ []) }
{
    let taken = taken_at(alloc, result_type, r)?;
    put(code, Mid::Tick)?;
    put(code, Mid::Call(f, List::new(passed), List::new(taken)))?;
    put(code, Mid::Tick)
}

/// A post, whose answer is taken as a number of 8 bits.
pub(crate) fn put_post(code: &mut Vec<Mid>, k: u32, r: u32) -> Result<(), NoMemory>
    requires { r + 1 < 2 ^ 32 }
    ensures { OnOk result (code.new.items ≡ code.old.items ++ mid.Post k r ∷ fit_code types.U8 r) }
{
    put(code, Mid::Post(k, r))?;
    put_fit(code, IntType::U8, r)
}

/// What an update does to the old value: an operator at a type, and whether the old value is the result.
#[derive(Clone, Copy)]
pub(crate) struct Change {
    pub(crate) op: BinOp,
    pub(crate) at: IntType,
    pub(crate) gives_old: bool,
}

fn put_result(code: &mut Vec<Mid>, of: IntType, gives_old: bool, r: u32) -> Result<(), NoMemory>
    requires { r + 7 < 2 ^ 32 }
    ensures { OnOk result (code.new.items ≡ code.old.items ++ move_code (help.is_wide of) r (if gives_old then r + 2 else r + 6)) }
{
    if gives_old {
        put_move(code, is_wide(of), r, r + 2)
    } else {
        put_move(code, is_wide(of), r, r + 6)
    }
}

/// An update of a place: its old value stands at `r + 2`, the other operand at `r + 4`; five labels.
pub(crate) fn put_update(
    alloc: Global,
    code: &mut Vec<Mid>,
    kind: Kind,
    of: IntType,
    change: Change,
    second: IntType,
    r: u32,
    l: u32,
) -> Result<(), NoMemory>
    requires values { r + 11 < 2 ^ 32 }
    requires labels { l + 4 < 2 ^ 32 }
    ensures { OnOk result (code.new.items ≡ code.old.items ++ update_code (kind_seen kind) of change.op change.at second change.gives_old r l) }
{
    put_move(code, is_wide(of), r + 6, r + 2)?;
    put_convert(code, of, change.at, r + 6, l)?;
    put_move(code, is_wide(second), r + 8, r + 4)?;
    put_binary(alloc, code, change.op, change.at, second, r + 6, l + 1)?;
    put_convert(code, change.at, of, r + 6, l + 4)?;
    put_in_place(code, kind, of, r + 6, r)?;
    put_result(code, of, change.gives_old, r)
}

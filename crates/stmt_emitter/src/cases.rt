//! The cases of a switch.

ghost use Rattle.std.specs.Prelude.{◌≡◌, ◌++◌, ◌+◌, ◌<◌, ◌^◌, map, OnOk, Some};
ghost use Rattle.std.specs.Ordering.{int_eq};
ghost use Rattle.nm_base.specs.IntType.{wrapped};
ghost use Rattle.core_meaning.specs.Flow as flow;
ghost use Rattle.lower_stmt.specs.Code.{case_code, cases_code};
ghost use Rattle.lower_stmt.specs.Code as spec;
ghost use Rattle.nesc_core.specs.View.{case_of};
ghost use Rattle.stmt_emitter.specs.Starts.{IsBelow, StartBelow};

use crate::put::put_same;
use expr_emitter::conversions::put_const;
use expr_emitter::numbers::is_wide;
use expr_emitter::put::put;
use mid_code::Mid;
use nm_base::{IntType, NoMemory, wrap};

/// Where the default begins.
pub(crate) fn start_of_default(cases: &[(Option<i64>, u32)], count: u32) -> Option<u32>
    requires { StartBelow count (map case_of cases.now) }
    ensures start { result ≡ flow.start_of_default (map case_of cases.now) }
    ensures inside { IsBelow count result }
{
    let mut rest = cases;
    while let Some((case, others)) = rest.split_first() {
        if case.0.is_none() {
            return Some(case.1);
        }
        rest = others;
    }
    None
}

// The label of a switch's statement.
fn label_of(start: Option<u32>, l: u32, count: u32) -> u32
    requires inside { IsBelow count start }
    requires labels { l + 1 + count < 2 ^ 32 }
    ensures { result ≡ spec.label_of start l }
{
    match start {
        None => l,
        Some(k) => l + 1 + k,
    }
}

fn is_of(t: IntType, n: i64) -> bool
    ensures { result ≡ int_eq (wrapped t n) n }
{
    wrap(t, n) == n
}

fn put_number(code: &mut Vec<Mid>, t: IntType, n: i64, r: u32, l: u32) -> Result<(), NoMemory>
    requires { r + 3 < 2 ^ 32 }
    ensures { OnOk result (code.new.items ≡ code.old.items ++ case_code t (Some n) r l) }
{
    if is_of(t, n) {
        put_const(code, t, n, r + 2)?;
        put_same(code, is_wide(t), r, l)
    } else {
        Ok(())
    }
}

fn put_case(
    code: &mut Vec<Mid>,
    t: IntType,
    value: Option<i64>,
    r: u32,
    l: u32,
) -> Result<(), NoMemory>
    requires { r + 3 < 2 ^ 32 }
    ensures { OnOk result (code.new.items ≡ code.old.items ++ case_code t value r l) }
{
    match value {
        None => Ok(()),
        Some(n) => put_number(code, t, n, r, l),
    }
}

/// The number at `r` is compared with that of each case, in order; `l` is the label behind the switch, and those of its statements
/// follow it.
pub(crate) fn put_cases(
    code: &mut Vec<Mid>,
    t: IntType,
    cases: &[(Option<i64>, u32)],
    count: u32,
    r: u32,
    l: u32,
) -> Result<(), NoMemory>
    requires starts { StartBelow count (map case_of cases.now) }
    requires values { r + 3 < 2 ^ 32 }
    requires labels { l + 1 + count < 2 ^ 32 }
    ensures { OnOk result (code.new.items ≡ code.old.items ++ cases_code t (map case_of cases.now) (flow.start_of_default (map case_of cases.now)) r l) }
{
    let default = start_of_default(cases, count);
    let mut rest = cases;
    while let Some((case, others)) = rest.split_first() {
        put_case(code, t, case.0, r, l + 1 + case.1)?;
        rest = others;
    }
    put(code, Mid::Jump(label_of(default, l, count)))
}

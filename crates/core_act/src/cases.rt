//! Where in the statements of a switch the case of a value begins.

ghost use Rattle.core_meaning.specs.Flow as flow;
ghost use Rattle.core_act.specs.Told.{from_start};
ghost use Rattle.core_meaning.specs.Work.{Work};
ghost use Rattle.core_meaning.specs.declared.flow.Flow.{Flow};
ghost use Rattle.nesc_core.specs.View.{case_of};
ghost use Rattle.std.specs.Prelude.{◌≡◌, ℕ, drop, map};

use nesc_core::CoreStmt;
use nm_base::List;

fn is_case(value: Option<i64>, v: i64) -> bool
    ensures { result ≡ flow.is_case value v }
{
    match value {
        None => false,
        Some(n) => n == v,
    }
}

// Where the first case with this value begins.
fn start_of_value(cases: &[(Option<i64>, u32)], v: i64) -> Option<u32>
    ensures { result ≡ flow.start_of_value (map case_of cases.now) v }
{
    for case in cases {
        if is_case(case.0, v) {
            return Some(case.1);
        }
    }
    None
}

// Where the default begins.
fn start_of_default(cases: &[(Option<i64>, u32)]) -> Option<u32>
    ensures { result ≡ flow.start_of_default (map case_of cases.now) }
{
    for case in cases {
        if case.0.is_none() {
            return Some(case.1);
        }
    }
    None
}

/// Where the case of a value begins, or else the default.
pub(crate) fn start_of(cases: &[(Option<i64>, u32)], v: i64) -> Option<u32>
    ensures { (from : ℕ → Work Flow) → flow.from_case (flow.start_of_value (map case_of cases.now) v) (flow.start_of_default (map case_of cases.now)) from ≡ from_start result from }
{
    match start_of_value(cases, v) {
        Some(k) => Some(k),
        None => start_of_default(cases),
    }
}

/// The statements from this one on.
pub(crate) fn statements_from(list: &List<CoreStmt>, k: usize) -> &[CoreStmt]
    ensures { result.now ≡ drop k list.now }
{
    match list.as_slice().get(k..) {
        None => &[],
        Some(rest) => rest,
    }
}

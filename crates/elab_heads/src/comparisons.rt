//! Whether two declarations agree.

ghost use Rattle.std.specs.Prelude.{◌≡◌, map};
ghost use Rattle.nesc_core.specs.Parts.{same_int};
ghost use Rattle.nesc_core.specs.View.{type_of};
ghost use Rattle.elab_facts.specs.View.{form_of};
ghost use Rattle.program_meaning.specs.Heads as spec;

use elab_facts::Form;
use nesc_core::{CoreType, is_same_type};
use nesc_tree::FuncKind;
use nm_base::IntType;

/// Whether both are functions, both tasks, both commands or both events.
pub fn same_kind(k: FuncKind, l: FuncKind) -> bool
    ensures { result ≡ spec.same_kind k l }
{
    match k {
        FuncKind::Plain => matches!(l, FuncKind::Plain),
        FuncKind::Task => matches!(l, FuncKind::Task),
        FuncKind::Command => matches!(l, FuncKind::Command),
        FuncKind::Event => matches!(l, FuncKind::Event),
    }
}

/// Whether both are said or neither is.
pub fn same_flag(x: bool, y: bool) -> bool
    ensures { result ≡ spec.same_flag x y }
{
    x == y
}

fn same_int_types(t: IntType, u: IntType) -> bool
    ensures { result ≡ same_int t u }
{
    t == u
}

fn same_bracket(b: Option<IntType>, c: Option<IntType>) -> bool
    ensures { result ≡ spec.same_bracket b c }
{
    match (b, c) {
        (Some(t), Some(u)) => same_int_types(t, u),
        (None, None) => true,
        (Some(_), None) | (None, Some(_)) => false,
    }
}

/// Whether the types of both lists are the same, one for one.
pub fn same_types(ts: &[CoreType], us: &[CoreType]) -> bool
    ensures { result ≡ spec.same_types (map type_of ts.now) (map type_of us.now) }
{
    let mut ts = ts;
    let mut us = us;
    while let Some((t, more)) = ts.split_first() {
        let Some((u, others)) = us.split_first() else {
            return false;
        };
        if !is_same_type(t, u) {
            return false;
        }
        ts = more;
        us = others;
    }
    us.is_empty()
}

/// Whether parameters and results agree (C99, 6.7.5.3).
pub fn same_signature(f: &Form, g: &Form) -> bool
    ensures { result ≡ spec.same_signature (form_of f.now) (form_of g.now) }
{
    same_bracket(f.bracket, g.bracket)
        && same_types(f.params.as_slice(), g.params.as_slice())
        && is_same_type(&f.result, &g.result)
}

/// Whether two declarations of a function agree in all that their heads say.
pub fn same_form(f: &Form, g: &Form) -> bool
    ensures { result ≡ spec.same_form (form_of f.now) (form_of g.now) }
{
    same_kind(f.kind, g.kind)
        && same_flag(f.is_async, g.is_async)
        && same_flag(f.is_default, g.is_default)
        && same_signature(f, g)
}

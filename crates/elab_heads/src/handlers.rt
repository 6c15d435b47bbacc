//! Handlers of interrupts, and the lines that their attributes give.

ghost use Rattle.std.specs.Prelude.{◌≡◌, codes, map};
ghost use Rattle.std.specs.List.{filter};
ghost use Rattle.std.specs.Option.{option_map};
ghost use Rattle.nesc_tree.specs.View.{expr_of};
ghost use Rattle.elab_facts.specs.View.{form_of};
ghost use Rattle.elab_meaning.specs.Answers.{Follows, Gives};
ghost use Rattle.elab_meaning.specs.View.{env_of, state_of};
ghost use Rattle.body_meaning.specs.View.{attr_arg_of, attr_of, head_of};
ghost use Rattle.program_meaning.specs.Heads as spec;
ghost use Rattle.elab_heads.specs.Vectors.{vector_of, vectors_from};

use crate::comparisons::{same_kind, same_types};
use elab_exprs::{Told, constant};
use elab_facts::Form;
use elab_meaning::Work;
use elab_values::{bad_type, is_void, not_constant};
use nesc_tree::{Attr, AttrArg, Expr, FuncHead, FuncKind};
use nesc_types::pos_of;
use nm_base::{Fault, List, Pos};
use std::alloc::Global;

// How many lines of interrupts a module may handle.
const LINES: u32 = 8;

// What the attributes say of a line.
#[derive(Clone, Copy)]
pub(crate) enum Vector<'a> {
    Nothing,
    At(&'a Expr),
    Bad,
}

// ---- attributes

fn is_named(a: &Attr, name: &[u8]) -> bool
    ensures { result ≡ spec.is_named name.now (attr_of a.now) }
{
    a.name.as_bytes() == name
}

fn is_vector(a: &Attr) -> bool
    ensures { result ≡ spec.is_named (codes "vector") (attr_of a.now) }
{
    is_named(a, b"vector")
}

// The first `@vector`, with the attributes behind it.
fn first_vector(attrs: &[Attr]) -> Option<(&Attr, &[Attr])>
    ensures { filter (spec.is_named (codes "vector")) (map attr_of attrs.now) ≡ vectors_from (option_map (λ x. (attr_of x.0.now, map attr_of x.1.now)) result) }
{
    let mut rest = attrs;
    while let Some((a, more)) = rest.split_first() {
        if is_vector(a) {
            return Some((a, more));
        }
        rest = more;
    }
    None
}

fn vector_arg(args: &List<AttrArg>) -> Vector<'_>
    ensures { vector_of result ≡ spec.vector_arg (map attr_arg_of args.now) }
{
    match args.as_slice() {
        [] => Vector::Bad,
        [AttrArg::Value(e)] => Vector::At(e),
        [AttrArg::Text(_)] => Vector::Bad,
        [_, _, ..] => Vector::Bad,
    }
}

// One `@vector` with one number.
fn vector_in(attrs: &[Attr]) -> Vector<'_>
    ensures { vector_of result ≡ spec.vector_in (map attr_of attrs.now) }
{
    match first_vector(attrs) {
        None => Vector::Nothing,
        Some((a, more)) => match first_vector(more) {
            None => vector_arg(&a.args),
            Some(_) => Vector::Bad,
        },
    }
}

fn is_interrupt(attrs: &[Attr]) -> bool
    ensures { result ≡ spec.is_interrupt (map attr_of attrs.now) }
{
    let mut rest = attrs;
    while let Some((a, more)) = rest.split_first() {
        if is_named(a, b"atomic_hwevent") {
            return true;
        }
        rest = more;
    }
    false
}

// ---- lines

// A function of a module without parameters and without a result.
fn may_handle(in_module: bool, f: &Form) -> bool
    ensures { result ≡ spec.may_handle in_module (form_of f.now) }
{
    in_module
        && same_kind(f.kind, FuncKind::Plain)
        && same_types(f.params.as_slice(), &[])
        && is_void(&f.result)
}

// Where the line is given, of a handler alone.
fn line_given<'a>(
    at: Pos,
    is_interrupt: bool,
    may: bool,
    vector: Vector<'a>,
) -> Result<Option<&'a Expr>, Fault>
    ensures { Follows (option_map (λ e. expr_of e.now)) result (spec.line_given at is_interrupt may (vector_of vector.entry)) }
{
    match vector {
        Vector::Nothing => { if is_interrupt { bad_type(at) } else { Ok(None) } }
        Vector::At(e) => {
            if is_interrupt && may {
                Ok(Some(e))
            } else {
                bad_type(at)
            }
        }
        Vector::Bad => bad_type(at),
    }
}

fn line_number(at: Pos, z: i64) -> Result<u32, Fault>
    ensures { Follows (λ n. n) result (spec.line_number at z) }
{
    match u32::try_from(z) {
        Ok(n) => { if n < LINES { Ok(n) } else { not_constant(at) } }
        Err(_) => not_constant(at),
    }
}

fn line_at(
    alloc: Global,
    told: &Told,
    work: &mut Work,
    e: Option<&Expr>,
) -> Result<Option<u32>, Fault>
    ensures { Gives (λ x. x) result (state_of work.new) (spec.line_at (env_of told.now.env) told.now.values (option_map (λ x. expr_of x.now) e.entry) (state_of work.old)) }
{
    match e {
        None => Ok(None),
        Some(e) => {
            let c = constant(alloc, told, work, e)?;
            Ok(Some(line_number(pos_of(e), c.1)?))
        }
    }
}

/// The interrupt line, 0 to 7, that a function handles, by `@atomic_hwevent` and `@vector`. Errors: BadType at the function's name where only
/// one of both stands there, or where the function may handle none; NotConstant at a number that is no line.
pub fn line(
    alloc: Global,
    told: &Told,
    work: &mut Work,
    in_module: bool,
    h: &FuncHead,
    f: &Form,
) -> Result<Option<u32>, Fault>
    ensures { Gives (λ x. x) result (state_of work.new) (spec.line (env_of told.now.env) told.now.values in_module (head_of h.now) (form_of f.now) (state_of work.old)) }
{
    let attrs = h.attrs.as_slice();
    let e = line_given(
        h.pos,
        is_interrupt(attrs),
        may_handle(in_module, f),
        vector_in(attrs),
    )?;
    line_at(alloc, told, work, e)
}

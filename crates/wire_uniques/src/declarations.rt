//! The uses of `unique` in heads of functions and in variables.

ghost use Rattle.std.specs.Prelude.{◌≡◌, ◌++◌, OnOk, codes, bytes_eq};
ghost use Rattle.wire_uniques.specs.Statements as spec;

use crate::expressions::{in_declarator, in_expr, in_type};
use crate::used::Use;
use nesc_tree::{Attr, AttrArg, FuncHead, Init, Param, VarGroup, Variable};
use nm_base::{List, Name, NoMemory};

#[cycle(inits)]
fn in_init(found: &mut Vec<Use>, init: &Init) -> Result<(), NoMemory>
    ensures { OnOk result (found.new.items ≡ found.old.items ++ spec.in_init init.now) }
{
    match init {
        Init::One(e) => in_expr(found, e),
        Init::Many(inits) => in_inits(found, inits),
    }
}

#[cycle(inits)]
#[tactic(auto, using(crate::proofs::Parts::parts))]
fn in_inits(found: &mut Vec<Use>, inits: &List<Init>) -> Result<(), NoMemory>
    ensures { OnOk result (found.new.items ≡ found.old.items ++ spec.in_inits inits.now) }
{
    for init in inits.as_slice() {
        in_init(found, init)?;
    }
    Ok(())
}

fn in_variable(found: &mut Vec<Use>, variable: &Variable) -> Result<(), NoMemory>
    ensures { OnOk result (found.new.items ≡ found.old.items ++ spec.in_variable variable.now) }
{
    in_declarator(found, &variable.declarator)?;
    match &variable.init {
        Some(init) => in_init(found, init),
        None => Ok(()),
    }
}

#[tactic(auto, using(crate::proofs::Parts::parts))]
fn in_variables(found: &mut Vec<Use>, variables: &List<Variable>) -> Result<(), NoMemory>
    ensures { OnOk result (found.new.items ≡ found.old.items ++ spec.in_variables variables.now) }
{
    for variable in variables.as_slice() {
        in_variable(found, variable)?;
    }
    Ok(())
}

/// Adds the uses in variables that share a type.
pub fn in_vars(found: &mut Vec<Use>, group: &VarGroup) -> Result<(), NoMemory>
    ensures { OnOk result (found.new.items ≡ found.old.items ++ spec.in_vars group.now) }
{
    in_type(found, &group.ty)?;
    in_variables(found, &group.vars)
}

#[tactic(auto, using(crate::proofs::Parts::parts))]
fn in_params(found: &mut Vec<Use>, params: &List<Param>) -> Result<(), NoMemory>
    ensures { OnOk result (found.new.items ≡ found.old.items ++ spec.in_params params.now) }
{
    for param in params.as_slice() {
        in_type(found, &param.ty)?;
    }
    Ok(())
}

fn in_bracket(found: &mut Vec<Use>, bracket: &Option<Param>) -> Result<(), NoMemory>
    ensures { OnOk result (found.new.items ≡ found.old.items ++ spec.in_bracket bracket.now) }
{
    match bracket {
        Some(param) => in_type(found, &param.ty),
        None => Ok(()),
    }
}

fn in_arg(found: &mut Vec<Use>, arg: &AttrArg) -> Result<(), NoMemory>
    ensures { OnOk result (found.new.items ≡ found.old.items ++ spec.in_arg arg.now) }
{
    match arg {
        AttrArg::Text(_) => Ok(()),
        AttrArg::Value(e) => in_expr(found, e),
    }
}

#[tactic(auto, using(crate::proofs::Parts::parts))]
fn in_args(found: &mut Vec<Use>, args: &List<AttrArg>) -> Result<(), NoMemory>
    ensures { OnOk result (found.new.items ≡ found.old.items ++ spec.in_args args.now) }
{
    for arg in args.as_slice() {
        in_arg(found, arg)?;
    }
    Ok(())
}

fn is_vector(name: &Name) -> bool
    ensures { result ≡ bytes_eq name.now (codes "vector") }
{
    name.as_bytes() == b"vector".as_slice()
}

fn in_attr(found: &mut Vec<Use>, attr: &Attr) -> Result<(), NoMemory>
    ensures { OnOk result (found.new.items ≡ found.old.items ++ spec.in_attr attr.now) }
{
    if is_vector(&attr.name) {
        in_args(found, &attr.args)
    } else {
        Ok(())
    }
}

#[tactic(auto, using(crate::proofs::Parts::parts))]
fn in_attrs(found: &mut Vec<Use>, attrs: &List<Attr>) -> Result<(), NoMemory>
    ensures { OnOk result (found.new.items ≡ found.old.items ++ spec.in_attrs attrs.now) }
{
    for attr in attrs.as_slice() {
        in_attr(found, attr)?;
    }
    Ok(())
}

/// Adds the uses in the head of a function.
pub fn in_head(found: &mut Vec<Use>, head: &FuncHead) -> Result<(), NoMemory>
    ensures { OnOk result (found.new.items ≡ found.old.items ++ spec.in_head head.now) }
{
    in_type(found, &head.result)?;
    in_bracket(found, &head.bracket)?;
    in_params(found, &head.params)?;
    in_attrs(found, &head.attrs)
}

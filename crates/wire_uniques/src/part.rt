//! The uses of `unique` in what files hold.

ghost use Rattle.std.specs.Prelude.{◌≡◌, ◌++◌, OnOk};
ghost use Rattle.wire_uniques.specs.Parts as spec;
ghost use Rattle.wire_uniques.specs.Statements.{in_decls};

use crate::expressions::{in_expr, in_type, in_value};
use crate::place::begins_before;
use crate::statements::in_decl;
use crate::used::Use;
use nesc_tree::{ConfLine, Decl, Elem, GenericArg, GenericParam, Head, Part, TypeSpec, WireEnd};
use nm_base::{List, NoMemory};

#[tactic(auto, using(crate::proofs::Parts::parts))]
fn in_specs(found: &mut Vec<Use>, specs: &List<TypeSpec>) -> Result<(), NoMemory>
    ensures { OnOk result (found.new.items ≡ found.old.items ++ spec.in_specs specs.now) }
{
    for t in specs.as_slice() {
        in_type(found, t)?;
    }
    Ok(())
}

fn in_some(found: &mut Vec<Use>, t: &Option<TypeSpec>) -> Result<(), NoMemory>
    ensures { OnOk result (found.new.items ≡ found.old.items ++ spec.in_some t.now) }
{
    match t {
        Some(t) => in_type(found, t),
        None => Ok(()),
    }
}

fn in_elem(found: &mut Vec<Use>, elem: &Elem) -> Result<(), NoMemory>
    ensures { OnOk result (found.new.items ≡ found.old.items ++ spec.in_elem elem.now) }
{
    in_specs(found, &elem.args)?;
    in_some(found, &elem.param)
}

#[tactic(auto, using(crate::proofs::Parts::parts))]
fn in_elems(found: &mut Vec<Use>, elems: &List<Elem>) -> Result<(), NoMemory>
    ensures { OnOk result (found.new.items ≡ found.old.items ++ spec.in_elems elems.now) }
{
    for elem in elems.as_slice() {
        in_elem(found, elem)?;
    }
    Ok(())
}

#[tactic(auto, using(crate::proofs::Parts::parts))]
fn in_params(found: &mut Vec<Use>, params: &List<GenericParam>) -> Result<(), NoMemory>
    ensures { OnOk result (found.new.items ≡ found.old.items ++ spec.in_params params.now) }
{
    for param in params.as_slice() {
        in_some(found, &param.ty)?;
    }
    Ok(())
}

fn in_generic(found: &mut Vec<Use>, params: &Option<List<GenericParam>>) -> Result<(), NoMemory>
    ensures { OnOk result (found.new.items ≡ found.old.items ++ spec.in_generic params.now) }
{
    match params {
        Some(params) => in_params(found, params),
        None => Ok(()),
    }
}

fn in_head(found: &mut Vec<Use>, head: &Head) -> Result<(), NoMemory>
    ensures { OnOk result (found.new.items ≡ found.old.items ++ spec.in_head head.now) }
{
    in_generic(found, &head.generic)?;
    in_elems(found, &head.elems)
}

fn in_garg(found: &mut Vec<Use>, arg: &GenericArg) -> Result<(), NoMemory>
    ensures { OnOk result (found.new.items ≡ found.old.items ++ spec.in_garg arg.now) }
{
    match arg {
        GenericArg::Ty(t) => in_type(found, t),
        GenericArg::Value(e) => in_expr(found, e),
    }
}

#[tactic(auto, using(crate::proofs::Parts::parts))]
fn in_gargs(found: &mut Vec<Use>, args: &List<GenericArg>) -> Result<(), NoMemory>
    ensures { OnOk result (found.new.items ≡ found.old.items ++ spec.in_gargs args.now) }
{
    for arg in args.as_slice() {
        in_garg(found, arg)?;
    }
    Ok(())
}

fn in_new(found: &mut Vec<Use>, args: &Option<List<GenericArg>>) -> Result<(), NoMemory>
    ensures { OnOk result (found.new.items ≡ found.old.items ++ spec.in_new args.now) }
{
    match args {
        Some(args) => in_gargs(found, args),
        None => Ok(()),
    }
}

fn in_ends(found: &mut Vec<Use>, first: &WireEnd, second: &WireEnd) -> Result<(), NoMemory>
    ensures { OnOk result (found.new.items ≡ found.old.items ++ (spec.in_end first.now ++ spec.in_end second.now)) }
{
    in_value(found, &first.param)?;
    in_value(found, &second.param)
}

fn in_link(found: &mut Vec<Use>, from: &WireEnd, to: &WireEnd) -> Result<(), NoMemory>
    ensures { OnOk result (found.new.items ≡ found.old.items ++ spec.in_link from.now to.now) }
{
    if begins_before(&to.param, &from.param) {
        in_ends(found, to, from)
    } else {
        in_ends(found, from, to)
    }
}

fn in_line(found: &mut Vec<Use>, line: &ConfLine) -> Result<(), NoMemory>
    ensures { OnOk result (found.new.items ≡ found.old.items ++ spec.in_line line.now) }
{
    match line {
        ConfLine::Component { new_args, .. } => in_new(found, new_args),
        ConfLine::Link { from, to, .. } => in_link(found, from, to),
        ConfLine::Equate { a, b, .. } => in_ends(found, a, b),
        ConfLine::Decl(decl) => in_decl(found, decl),
    }
}

#[tactic(auto, using(crate::proofs::Parts::parts))]
fn in_lines(found: &mut Vec<Use>, lines: &List<ConfLine>) -> Result<(), NoMemory>
    ensures { OnOk result (found.new.items ≡ found.old.items ++ spec.in_lines lines.now) }
{
    for line in lines.as_slice() {
        in_line(found, line)?;
    }
    Ok(())
}

/// Adds the uses in declarations.
#[tactic(auto, using(crate::proofs::Parts::parts))]
pub fn in_decls(found: &mut Vec<Use>, decls: &List<Decl>) -> Result<(), NoMemory>
    ensures { OnOk result (found.new.items ≡ found.old.items ++ in_decls decls.now) }
{
    for decl in decls.as_slice() {
        in_decl(found, decl)?;
    }
    Ok(())
}

/// Adds the uses in a component; an interface and a header have none of their own.
pub fn in_part(found: &mut Vec<Use>, part: &Part) -> Result<(), NoMemory>
    ensures { OnOk result (found.new.items ≡ found.old.items ++ spec.in_part part.now) }
{
    match part {
        Part::Module(module) => {
            in_head(found, &module.head)?;
            in_decls(found, &module.decls)
        }
        Part::Config(config) => {
            in_head(found, &config.head)?;
            in_lines(found, &config.lines)
        }
        Part::Interface(_) | Part::Header => Ok(()),
    }
}

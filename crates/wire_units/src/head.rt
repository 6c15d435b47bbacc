//! Specifications of components.

ghost use Rattle.std.specs.Prelude.{◌≡◌, Ok, Err, None, Some, IfOk, OnOk};
ghost use Rattle.wire_instances.specs.declared.plan.Unmet.{Unmet as UnmetOf};
ghost use Rattle.wire_units.specs.Scope.{Scope, declare_all, fault_of};
ghost use Rattle.wire_units.specs.Heads.{params_at, params_of, fits, judged_element, judged_elements, judged_head};

use crate::face::Face;
use crate::scope::declare;
use crate::table::Table;
use nesc_tree::{Elem, GenericParam, Head};
use nm_base::{NoMemory, Pos};
use std::alloc::Global;
use wire_instances::{Stop, Unmet};
use wire_names::NameTable;

fn declare_params(scope: &mut NameTable, params: &[GenericParam], at: Pos) -> Result<(), Stop>
    ensures declared { OnOk result (declare_all scope.old (params_at at params.now) ≡ Ok scope.new) }
    ensures refused { (unmet : UnmetOf) → result ≡ Err (Stop.Unmet unmet) → declare_all scope.old (params_at at params.now) ≡ Err unmet }
{
    let mut rest = params;
    while let Some((param, more)) = rest.split_first() {
        declare(scope, &param.name, at)?;
        rest = more;
    }
    Ok(())
}

fn declare_generic(scope: &mut NameTable, head: &Head, at: Pos) -> Result<(), Stop>
    ensures declared { OnOk result (declare_all scope.old (params_of at head.now.generic) ≡ Ok scope.new) }
    ensures refused { (unmet : UnmetOf) → result ≡ Err (Stop.Unmet unmet) → declare_all scope.old (params_of at head.now.generic) ≡ Err unmet }
{
    match &head.generic {
        Some(params) => declare_params(scope, params.as_slice(), at),
        None => Ok(()),
    }
}

fn fits(face: Face, given: usize, pos: Pos) -> Result<(), Stop>
    ensures fits { OnOk result ((scope : Scope) → fits face given pos scope ≡ Ok scope) }
    ensures refused { (unmet : UnmetOf) → result ≡ Err (Stop.Unmet unmet) → (scope : Scope) → fits face given pos scope ≡ Err unmet }
{
    if given != face.params {
        return Err(Stop::Unmet(Unmet::ArgumentMismatch(pos)));
    }
    match face.refused {
        Some(unmet) => Err(Stop::Unmet(unmet)),
        None => Ok(()),
    }
}

fn judge_element(table: &Table, scope: &mut NameTable, elem: &Elem) -> Result<(), Stop>
    ensures judged { OnOk result (judged_element table.now.units.now scope.old elem.now ≡ Ok scope.new) }
    ensures refused { (unmet : UnmetOf) → result ≡ Err (Stop.Unmet unmet) → judged_element table.now.units.now scope.old elem.now ≡ Err unmet }
{
    let Some(face) = table.face(&elem.iface) else {
        return Err(Stop::Unmet(Unmet::UnknownName(elem.pos)));
    };
    declare(scope, &elem.name, elem.pos)?;
    fits(face, elem.args.as_slice().len(), elem.pos)
}

fn judge_elements(table: &Table, scope: &mut NameTable, elems: &[Elem]) -> Result<(), Stop>
    ensures judged { OnOk result (judged_elements table.now.units.now scope.old elems.now ≡ Ok scope.new) }
    ensures refused { (unmet : UnmetOf) → result ≡ Err (Stop.Unmet unmet) → judged_elements table.now.units.now scope.old elems.now ≡ Err unmet }
{
    let mut rest = elems;
    while let Some((elem, more)) = rest.split_first() {
        judge_element(table, scope, elem)?;
        rest = more;
    }
    Ok(())
}

fn judge_head(alloc: Global, table: &Table, at: Pos, head: &Head) -> Result<(), Stop>
    ensures fine { OnOk result (fault_of (judged_head table.now.units.now at head.now) ≡ None) }
    ensures refused { (unmet : UnmetOf) → result ≡ Err (Stop.Unmet unmet) → fault_of (judged_head table.now.units.now at head.now) ≡ Some unmet }
{
    let mut scope = NameTable::new(alloc);
    declare_generic(&mut scope, head, at)?;
    judge_elements(table, &mut scope, head.elems.as_slice())
}

/// What is wrong with a component's specification, whose name stands at this place.
pub fn head_refusal(
    alloc: Global,
    table: &Table,
    at: Pos,
    head: &Head,
) -> Result<Option<Unmet>, NoMemory>
    ensures { IfOk result (λ refused. refused ≡ fault_of (judged_head table.now.units.now at head.now)) }
{
    match judge_head(alloc, table, at, head) {
        Ok(()) => Ok(None),
        Err(Stop::Unmet(unmet)) => Ok(Some(unmet)),
        Err(Stop::Instances | Stop::NoMemory) => Err(NoMemory),
    }
}

//! Interfaces as the specifications of components see them.

ghost use Rattle.std.specs.Prelude.{◌≡◌, [], Ok, Err, IfOk, OnOk};
ghost use Rattle.wire_instances.specs.declared.plan.Unmet.{Unmet as UnmetOf};
ghost use Rattle.wire_units.specs.Scope.{declare_all, fault_of};
ghost use Rattle.wire_units.specs.Faces.{all_at, items_of, judged_face, face_in, faces_of};

use crate::loaded::Loaded;
use crate::scope::declare;
use nesc_tree::{Interface, Part, Sig};
use nm_base::{Name, NoMemory, Pos};
use std::alloc::Global;
use wire_instances::{Stop, Unmet};
use wire_names::NameTable;

/// An interface: the number of its type parameters, and what is wrong with its own declarations.
#[derive(Debug, Clone, Copy)]
pub struct Face {
    pub params: usize,
    pub refused: Option<Unmet>,
}

fn declare_params(scope: &mut NameTable, params: &[Name], at: Pos) -> Result<(), Stop>
    ensures declared { OnOk result (declare_all scope.old (all_at at params.now) ≡ Ok scope.new) }
    ensures refused { (unmet : UnmetOf) → result ≡ Err (Stop.Unmet unmet) → declare_all scope.old (all_at at params.now) ≡ Err unmet }
{
    let mut rest = params;
    while let Some((param, more)) = rest.split_first() {
        declare(scope, param, at)?;
        rest = more;
    }
    Ok(())
}

fn declare_items(scope: &mut NameTable, items: &[Sig]) -> Result<(), Stop>
    ensures declared { OnOk result (declare_all scope.old (items_of items.now) ≡ Ok scope.new) }
    ensures refused { (unmet : UnmetOf) → result ≡ Err (Stop.Unmet unmet) → declare_all scope.old (items_of items.now) ≡ Err unmet }
{
    let mut rest = items;
    while let Some((item, more)) = rest.split_first() {
        declare(scope, &item.name, item.pos)?;
        rest = more;
    }
    Ok(())
}

fn judge_face(alloc: Global, at: Pos, interface: &Interface) -> Result<(), Stop>
    ensures fine { OnOk result (fault_of (judged_face at interface.now) ≡ None) }
    ensures refused { (unmet : UnmetOf) → result ≡ Err (Stop.Unmet unmet) → fault_of (judged_face at interface.now) ≡ Some unmet }
{
    let mut params = NameTable::new(alloc);
    declare_params(&mut params, interface.params.as_slice(), at)?;
    let mut items = NameTable::new(alloc);
    declare_items(&mut items, interface.items.as_slice())
}

fn face_refusal(alloc: Global, at: Pos, interface: &Interface) -> Result<Option<Unmet>, NoMemory>
    ensures { IfOk result (λ refused. refused ≡ fault_of (judged_face at interface.now)) }
{
    match judge_face(alloc, at, interface) {
        Ok(()) => Ok(None),
        Err(Stop::Unmet(unmet)) => Ok(Some(unmet)),
        Err(Stop::Instances | Stop::NoMemory) => Err(NoMemory),
    }
}

fn face_in(alloc: Global, at: Pos, part: &Part) -> Result<Option<Face>, NoMemory>
    ensures { IfOk result (λ face. face ≡ face_in at part.now) }
{
    match part {
        Part::Interface(interface) => {
            let refused = face_refusal(alloc, at, interface)?;
            let params = interface.params.as_slice().len();
            Ok(Some(Face { params, refused }))
        }
        Part::Module(_) | Part::Config(_) | Part::Header => Ok(None),
    }
}

/// Of each file that holds an interface, how specifications see it.
pub fn faces_of(alloc: Global, units: &[Loaded]) -> Result<Vec<Option<Face>>, NoMemory>
    ensures { IfOk result (λ faces. faces.items ≡ faces_of units.now) }
{
    let mut faces = Vec::new(alloc);
    let mut rest = units;
    while let Some((loaded, more)) = rest.split_first() {
        faces.push(face_in(alloc, loaded.at, &loaded.unit.part)?)?;
        rest = more;
    }
    Ok(faces)
}

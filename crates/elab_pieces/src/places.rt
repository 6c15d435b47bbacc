//! Parts of a local or of a variable as places of the core.

ghost use Rattle.std.specs.Prelude.{◌≡◌, IfOk};
ghost use Rattle.nesc_core.specs.Plain as core;
ghost use Rattle.nesc_core.specs.View.{place_of};
ghost use Rattle.elab_meaning.specs.Places.{element_number};
ghost use Rattle.elab_meaning.specs.View.{target_of};
ghost use Rattle.elab_pieces.specs.Ways.{aim_of, root_of, stepped};

use crate::parts::{Part, Root, Step};
use elab_meaning::Target;
use nesc_core::{CoreExpr, Place};
use nm_base::{IntType, NoMemory};
use std::alloc::Global;
use std::collections::VecDeque;

fn begun(root: Root) -> Place
    ensures { place_of result ≡ root_of root }
{
    match root {
        Root::Local(k) => Place::Local(k),
        Root::Object(k) => Place::Object(k),
    }
}

fn element(alloc: Global, place: Place, i: u32) -> Result<Place, NoMemory>
    ensures { IfOk result (λ r. place_of r ≡ element_number (place_of place) i) }
{
    let index = CoreExpr::Const(IntType::I16, i64::from(i));
    Ok(Place::Index(Box::new(alloc, place)?, Box::new(alloc, index)?))
}

fn field(alloc: Global, place: Place, k: u32) -> Result<Place, NoMemory>
    ensures { IfOk result (λ r. place_of r ≡ core.field (place_of place) k) }
{
    Ok(Place::Field(Box::new(alloc, place)?, k))
}

fn step(alloc: Global, t: Target, s: Step) -> Result<Target, NoMemory>
    ensures { IfOk result (λ r. target_of r ≡ stepped (target_of t) s) }
{
    match s {
        Step::Element(i) => {
            let mut indexes = t.indexes;
            indexes.push_front(IntType::I16)?;
            let place = element(alloc, t.place, i)?;
            Ok(Target {
                place,
                indexes,
                ty: t.ty,
            })
        }
        Step::Field(k) => {
            let place = field(alloc, t.place, k)?;
            Ok(Target {
                place,
                indexes: t.indexes,
                ty: t.ty,
            })
        }
    }
}

/// The part as what an assignment stores to.
#[tactic(auto, using(crate::proofs::Ways::whole))]
pub fn target(alloc: Global, p: Part) -> Result<Target, NoMemory>
    ensures { IfOk result (λ r. target_of r ≡ aim_of p) }
{
    let Part { root, steps, ty } = p;
    let mut target = Target {
        place: begun(root),
        indexes: VecDeque::new(alloc),
        ty,
    };
    for s in steps.as_slice() {
        target = step(alloc, target, *s)?;
    }
    Ok(target)
}

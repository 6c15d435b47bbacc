//! What a line asks for.

ghost use Rattle.std.specs.Prelude.{◌≡◌, ℕ, ◌==◌, slice_get};
ghost use Rattle.std.specs.List.{list_any};
ghost use Rattle.wire_instances.specs.Instances.{has_instance, fitting, asks};

use crate::plan::{Line, Made, Plan, Unmet};
use nm_base::{NoMemory, Pos};
use std::alloc::{AllocError, AllocFailed};

/// Why the instances were not created.
#[derive(Debug, Clone, Copy)]
pub enum Stop {
    Unmet(Unmet),
    /// More than `MAX_INSTANCES` are asked for.
    Instances,
    NoMemory,
}

impl From<NoMemory> for Stop {
    ghost use Rattle.std.specs.Prelude.{◌≡◌};
    ghost use Rattle.wire_instances.specs.declared.naming.Stop.TheVariants.{NoMemory};

    ghost from_gives = { λ _ e. e ≡ NoMemory };

    fn from(_error: NoMemory) -> Stop {
        Stop::NoMemory
    }
}

impl From<AllocError> for Stop {
    ghost use Rattle.std.specs.Prelude.{◌≡◌};
    ghost use Rattle.wire_instances.specs.declared.naming.Stop.TheVariants.{NoMemory};

    ghost from_gives = { λ _ e. e ≡ NoMemory };

    fn from(_error: AllocError) -> Stop {
        Stop::NoMemory
    }
}

impl<T: Drop> From<AllocFailed<T>> for Stop {
    ghost use Rattle.std.specs.Prelude.{◌≡◌};
    ghost use Rattle.wire_instances.specs.declared.naming.Stop.TheVariants.{NoMemory};

    ghost from_gives = { λ _ e. e ≡ NoMemory };

    fn from(_error: AllocFailed<T>) -> Stop {
        Stop::NoMemory
    }
}

/// What a line asks for, beside what has been created: nothing more, or a new instance of a component.
#[derive(Debug, Clone, Copy)]
pub enum Naming {
    Has,
    New(usize),
}

fn is_around(around: &[usize], component: usize) -> bool
    ensures { result ≡ list_any (λ c. c == component) around.now }
{
    around.iter().any(|c| *c == component)
}

/// Whether the component has an instance.
pub fn has_instance(made: &[Made], component: usize) -> bool
    ensures { result ≡ has_instance component made.now }
{
    made.iter().any(|m| m.component == component)
}

fn fitting(
    given: Option<usize>,
    wanted: Option<usize>,
    component: usize,
    pos: Pos,
    around: &[usize],
    made: &[Made],
) -> Result<Naming, Stop>
    ensures { result ≡ fitting given wanted component pos around.now made.now }
{
    match (given, wanted) {
        (None, None) => {
            if has_instance(made, component) {
                Ok(Naming::Has)
            } else {
                Ok(Naming::New(component))
            }
        }
        (Some(given), Some(wanted)) => {
            if is_around(around, component) {
                Err(Stop::Unmet(Unmet::ComponentLoop(pos)))
            } else if given == wanted {
                Ok(Naming::New(component))
            } else {
                Err(Stop::Unmet(Unmet::ArgumentMismatch(pos)))
            }
        }
        _ => Err(Stop::Unmet(Unmet::ArgumentMismatch(pos))),
    }
}

/// What the line asks for, inside the creation of the components `around`.
pub fn asks(plans: &[Plan], around: &[usize], line: &Line, made: &[Made]) -> Result<Naming, Stop>
    ensures { result ≡ asks plans.now around.now line.now made.now }
{
    match *line {
        Line::Nothing => Ok(Naming::Has),
        Line::Refused(unmet) => Err(Stop::Unmet(unmet)),
        Line::Names {
            component,
            given,
            pos,
        } => match plans.get(component) {
            None => Err(Stop::Unmet(Unmet::UnknownName(pos))),
            Some(plan) => fitting(given, plan.generic, component, pos, around, made),
        },
    }
}

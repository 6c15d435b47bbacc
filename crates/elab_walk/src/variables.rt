//! Variables of modules.

ghost use Rattle.std.specs.Prelude.{◌≡◌, map};
ghost use Rattle.nesc_core.specs.View.{type_of};
ghost use Rattle.nesc_tree.specs.View.{base_of, exprs_of, spec_of};
ghost use Rattle.body_meaning.specs.View.{variable_of};
ghost use Rattle.elab_meaning.specs.Answers.{Gives};
ghost use Rattle.elab_meaning.specs.View.{based_of, env_of, state_of};
ghost use Rattle.elab_making.specs.Does.{Does};
ghost use Rattle.elab_making.specs.View.{whole_of};
ghost use Rattle.elab_rules.specs.Tells.{Tells};
ghost use Rattle.elab_locals.specs.Parts as locals;
ghost use Rattle.elab_walk.specs.Objects as objects;
ghost use Rattle.elab_walk.specs.Parts as parts;
ghost use Rattle.program_meaning.specs.Walk as spec;
ghost use Rattle.program_meaning.specs.Walk.{Told as Plain};

use crate::asking::dispatch_asked;
use elab_exprs::{Told, base, lengths};
use elab_forms::{is_const_at, resolved, starred};
use elab_locals::{evaluated, initials_of};
use elab_making::Whole;
use elab_meaning::{Based, Meaning, Work};
use elab_objects::Variable as Noted;
use elab_pieces::Root;
use elab_rules::{ModuleTold, first_at, instance_name};
use elab_types::new_name;
use elab_values::{copied, size};
use nesc_core::CoreType;
use nesc_tree::{Base, Expr, VarGroup, Variable};
use nm_base::{Fault, List, Name, Pos, Refusal};
use std::alloc::Global;

// The type that stars and dimensions make of the type before them.
fn shaped(
    alloc: Global,
    told: &Told,
    work: &mut Work,
    at: Pos,
    b: &Based,
    stars: u8,
    dims: &List<Expr>,
) -> Result<CoreType, Fault>
    ensures { Gives type_of result (state_of work.new) (locals.shaped (env_of told.now.env) told.now.values at (based_of b.now) stars (exprs_of dims.now) (state_of work.old)) }
{
    let part = starred(alloc, work, at, stars, b)?;
    let ns = lengths(alloc, told, work, dims)?;
    resolved(alloc, work, at, part, ns)
}

// A variable comes in force.
fn new_object(
    alloc: Global,
    work: &mut Work,
    at: Pos,
    name: &Name,
    t: &CoreType,
    number: u32,
    is_const: bool,
) -> Result<(), Fault>
    ensures { Gives (λ _. tt) result (state_of work.new) (objects.new_object at name.now (type_of t.now) number is_const (state_of work.old)) }
{
    size(work.structs.as_slice(), at, t)?;
    new_name(at, work.first_name, work.names.as_slice(), name)?;
    let copy = name.clone()?;
    work.add_name(copy, Meaning::Object(number, copied(alloc, t)?, is_const))
}

// The type of a variable, whose name is in force from its declarator on.
fn declared_variable(
    alloc: Global,
    told: &Told,
    work: &mut Work,
    b: &Based,
    said: bool,
    v: &Variable,
    number: u32,
) -> Result<CoreType, Fault>
    ensures { Gives type_of result (state_of work.new) (objects.declared (env_of told.now.env) told.now.values (based_of b.now) said (variable_of v.now) number (state_of work.old)) }
{
    let d = &v.declarator;
    let t = shaped(alloc, told, work, v.pos, b, d.stars, &d.dims)?;
    let is_const = is_const_at(d.stars, said, b.is_const);
    new_object(alloc, work, v.pos, &d.name, &t, number, is_const)?;
    Ok(t)
}

// A variable is noted with its type.
fn noted(
    alloc: Global,
    m: &ModuleTold,
    whole: &mut Whole,
    v: &Variable,
    norace: bool,
    t: &CoreType,
) -> Result<(), Fault>
    ensures { (told : Plain) → Tells m.now told → Does (λ _. tt) result (whole_of whole.new) (parts.noted told (variable_of v.now) norace (type_of t.now) (whole_of whole.old)) }
{
    let name = instance_name(alloc, m, &v.declarator.name)?;
    let ty = copied(alloc, t)?;
    whole.add_variable(Noted { name, ty, norace })
}

// Its initial values, which the boot function stores.
fn initialised(
    alloc: Global,
    m: &ModuleTold,
    whole: &mut Whole,
    v: &Variable,
    number: u32,
    t: CoreType,
) -> Result<(), Fault>
    ensures { (told : Plain) → Tells m.now told → Does (λ _. tt) result (whole_of whole.new) (parts.initialised told (variable_of v.now) number (type_of t) (whole_of whole.old)) }
{
    whole.enter_boot(alloc);
    let steps = initials_of(
        alloc,
        &m.told,
        &mut whole.work,
        v.pos,
        Root::Object(number),
        t,
        &v.init,
    )?;
    whole.leave_boot(alloc);
    whole.add_initial(evaluated(alloc, steps)?)
}

// A variable of a type.
fn of_type(
    alloc: Global,
    m: &ModuleTold,
    whole: &mut Whole,
    v: &Variable,
    norace: bool,
    number: u32,
    t: CoreType,
) -> Result<(), Fault>
    ensures { (told : Plain) → Tells m.now told → Does (λ _. tt) result (whole_of whole.new) (parts.of_type told (variable_of v.now) norace number (type_of t) (whole_of whole.old)) }
{
    noted(alloc, m, whole, v, norace, &t)?;
    initialised(alloc, m, whole, v, number, t)
}

// A variable.
fn variable(
    alloc: Global,
    m: &ModuleTold,
    whole: &mut Whole,
    b: &Based,
    said: bool,
    norace: bool,
    v: &Variable,
) -> Result<(), Fault>
    ensures { (told : Plain) → Tells m.now told → Does (λ _. tt) result (whole_of whole.new) (parts.variable told (based_of b.now) said norace (variable_of v.now) (whole_of whole.old)) }
{
    let number = whole.next_variable()?;
    let t = declared_variable(alloc, &m.told, &mut whole.work, b, said, v, number)?;
    of_type(alloc, m, whole, v, norace, number, t)?;
    dispatch_asked(alloc, m, whole)
}

// Variables that share the type before their stars.
fn variables(
    alloc: Global,
    m: &ModuleTold,
    whole: &mut Whole,
    b: &Based,
    said: bool,
    norace: bool,
    vars: &[Variable],
) -> Result<(), Fault>
    ensures { (told : Plain) → Tells m.now told → Does (λ _. tt) result (whole_of whole.new) (spec.variables told (based_of b.now) said norace (map variable_of vars.now) (whole_of whole.old)) }
{
    for v in vars {
        variable(alloc, m, whole, b, said, norace, v)?;
    }
    Ok(())
}

// The type before their stars, which is told of at a place.
fn found_base(
    alloc: Global,
    m: &ModuleTold,
    whole: &mut Whole,
    at: Pos,
    b: &Base,
) -> Result<Based, Fault>
    ensures { (told : Plain) → Tells m.now told → Does based_of result (whole_of whole.new) (parts.found_base told at (base_of b.now) (whole_of whole.old)) }
{
    base(alloc, &m.told, &mut whole.work, b, at)
}

fn variables_of(alloc: Global, m: &ModuleTold, whole: &mut Whole, g: &VarGroup) -> Result<(), Fault>
    ensures { (told : Plain) → Tells m.now told → Does (λ _. tt) result (whole_of whole.new) (spec.variables_of told (spec_of g.now.ty) g.now.norace (map variable_of g.now.vars) (whole_of whole.old)) }
{
    let vars = g.vars.as_slice();
    let b = found_base(alloc, m, whole, first_at(vars), &g.ty.base)?;
    variables(alloc, m, whole, &b, g.ty.is_const, g.norace, vars)
}

/// Variables that share a type, which are declared in modules alone. Errors: Syntax in a header; DuplicateName for a name that the scope
/// has; what their types and initial values are refused for.
pub(crate) fn variables_in(
    alloc: Global,
    m: &ModuleTold,
    whole: &mut Whole,
    g: &VarGroup,
) -> Result<(), Fault>
    ensures { (told : Plain) → Tells m.now told → Does (λ _. tt) result (whole_of whole.new) (spec.variables_in told told.instance (spec_of g.now.ty) g.now.norace (map variable_of g.now.vars) (whole_of whole.old)) }
{
    match &m.instance {
        None => Err(Fault::Refused(Refusal::Syntax(first_at(g.vars.as_slice())))),
        Some(_) => variables_of(alloc, m, whole, g),
    }
}

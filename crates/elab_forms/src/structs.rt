//! New tags and enum constants.

ghost use Rattle.std.specs.Prelude.{◌≡◌, Some};
ghost use Rattle.elab_meaning.specs.Answers.{Gives};
ghost use Rattle.elab_meaning.specs.Wired as spec;
ghost use Rattle.elab_meaning.specs.View.{kind_of, state_of};
ghost use Rattle.elab_forms.specs.Parts.{declared};

use elab_meaning::{Kind, Meaning, Work};
use elab_types::{enum_constant, new_name, new_tag};
use nm_base::{Fault, Name, Pos};

/// A new tag of the innermost scope, where one is given.
pub fn tagged(work: &mut Work, at: Pos, tag: &Option<Name>, kind: Kind) -> Result<(), Fault>
    ensures { Gives (λ _. tt) result (state_of work.new) (spec.tagged at tag.now (kind_of kind) (state_of work.old)) }
{
    match tag {
        None => Ok(()),
        Some(tag) => new_tagged(work, at, tag, kind),
    }
}

fn new_tagged(work: &mut Work, at: Pos, tag: &Name, kind: Kind) -> Result<(), Fault>
    ensures { Gives (λ _. tt) result (state_of work.new) (spec.tagged at (Some tag.now) (kind_of kind) (state_of work.old)) }
{
    new_tag(at, work.first_tag, work.tags.as_slice(), tag)?;
    let name = tag.clone()?;
    work.add_tag(name, kind)
}

/// A new enum constant; the answer is the number behind it.
pub fn declare_constant(work: &mut Work, at: Pos, name: &Name, z: i64) -> Result<i64, Fault>
    ensures { Gives (λ z. z) result (state_of work.new) (declared at name.now z (state_of work.old)) }
{
    let c = enum_constant(at, z)?;
    new_name(at, work.first_name, work.names.as_slice(), name)?;
    let copy = name.clone()?;
    work.add_name(copy, Meaning::Constant(c.0, c.1))?;
    Ok(z + 1)
}

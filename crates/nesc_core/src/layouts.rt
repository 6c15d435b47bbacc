//! The layouts of all structs, each made once.

ghost use Rattle.std.specs.Prelude.{◌≡◌};
ghost use Rattle.nesc_core.specs.Layouts.{layouts_of};
ghost use Rattle.nesc_core.specs.View.{structs_of};

use crate::layout::Layout;
use crate::layouts_made::{layout_among, made_layouts};
use crate::tree::{CoreType, Structs};
use nm_base::NoMemory;
use std::alloc::Global;

/// The layouts of all structs of a program.
#[derive(Drop)]
pub struct Layouts<'s> {
    pub structs: &'s Structs,
    made: Vec<Layout>,
    ghost whole: { made.items ≡ layouts_of (structs_of structs.now) },
}

impl<'s> Layouts<'s> {
    ghost use Rattle.std.specs.Prelude.{◌≡◌, IfOk};
    ghost use Rattle.nesc_core.specs.Size as sizes;
    ghost use Rattle.nesc_core.specs.Size.{AreSized, IsSized, layout_of};
    ghost use Rattle.nesc_core.specs.View.{structs_of, type_of};

    /// Makes each struct's layout once, from the lowest number on: time grows with the number of fields, and with how deep
    /// arrays stand in one another in a field.
    pub fn new(alloc: Global, structs: &'s Structs) -> Result<Layouts<'s>, NoMemory>
        requires { AreSized (structs_of structs.now) }
        ensures { IfOk result (λ layouts. layouts.structs.now ≡ structs.now) }
    {
        let made = made_layouts(alloc, structs)?;
        Ok(Layouts { structs, made })
    }

    /// How a value of the type lies in memory: time grows with how deep arrays stand in one another in the type.
    pub fn layout(&self, t: &CoreType) -> Layout
        requires { IsSized (structs_of self.now.structs.now) (type_of t.now) }
        ensures { result ≡ layout_of (structs_of self.now.structs.now) (type_of t.now) }
    {
        layout_among(self.made.as_slice(), t)
    }

    /// The size of the type in bytes.
    pub fn size(&self, t: &CoreType) -> u32
        requires { IsSized (structs_of self.now.structs.now) (type_of t.now) }
        ensures { result ≡ (layout_of (structs_of self.now.structs.now) (type_of t.now)).size }
    {
        self.layout(t).size
    }
}

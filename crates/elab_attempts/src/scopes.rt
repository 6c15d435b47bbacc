//! Names in force whatever is refused.

ghost use Rattle.std.specs.Prelude.{◌≡◌, [], IfOk, Ok, OnOk};
ghost use Rattle.std.specs.Option.{option_map};
ghost use Rattle.nesc_tree.specs.View.{base_of, expr_of};
ghost use Rattle.elab_meaning.specs.View.{based_of, state_of};
ghost use Rattle.elab_meaning.specs.Wired as wired;
ghost use Rattle.elab_pieces.specs.Flow.{entered, left, outer, outer_of};
ghost use Rattle.body_meaning.specs.View.{decl_of, param_of, variable_of};
ghost use Rattle.nesc_unwired.specs.Calls as spec;
ghost use Rattle.nesc_unwired.specs.Calls.{Module, constant_of};
ghost use Rattle.wire_elements.specs.View.{early_env};
ghost use Rattle.elab_attempts.specs.Attempts.{attempted, type_in_force};
ghost use Rattle.elab_attempts.specs.View.{now};

use crate::works::{
    Works, base_in, bracket_in, constant_in, declare_type_in, enter_in, hide_in, leave_in,
    parameter_in, variable_in, works_of,
};
use elab_meaning::{Based, Work};
use elab_pieces::Outer;
use nesc_tree::{Base, Decl, Expr, Param, Variable};
use nesc_types::Constant;
use nm_base::{Name, NoMemory, Pos};
use std::alloc::Global;
use std::marker::Model;
use wire_elements::Early;

/// Names in force whatever is refused: a declaration that elaboration will refuse declares a name that is no constant. Contracts see the
/// work with the state that is in force.
#[derive(Drop)]
pub struct Scopes {
    works: Works,
}

impl Model for Scopes {
    ghost use Rattle.std.specs.Coded.{codes};
    ghost use Rattle.nesc_core.specs.contracts.tree.CoreType as core_type;
    ghost use Rattle.elab_meaning.specs.declared.work.Work.{Work};
    ghost use Rattle.elab_attempts.specs.View.{AreSame};

    ghost Value = { Work };

    ghost coded = { Prim.hlevel (codes, core_type.the_row.coded) };

    ghost view = { λ s. s.works.kept };

    ghost invariant = { λ s. AreSame s.works };
}

impl Scopes {
    /// What is in force is what the work has.
    pub fn new(alloc: Global, work: &Work) -> Result<Scopes, NoMemory>
        ensures { IfOk result (λ s. now s ≡ state_of work.now) }
    {
        Ok(Scopes {
            works: works_of(alloc, work)?,
        })
    }

    /// A name comes in force that is neither a constant nor a type.
    pub fn hide(&mut self, name: &Name) -> Result<(), NoMemory>
        ensures { OnOk result (spec.hides name.now (now self.old) ≡ Ok (tt, now self.new)) }
    {
        hide_in(&mut self.works, name)
    }

    /// Opens a scope.
    pub fn enter(&mut self) -> Outer
        ensures outer { outer_of result ≡ outer (now self.old) }
        ensures entered { now self.new ≡ entered (now self.old) }
    {
        enter_in(&mut self.works)
    }

    /// Ends the scope.
    pub fn leave(&mut self, outer: Outer)
        ensures { now self.new ≡ left (outer_of outer) (now self.old) }
    {
        leave_in(&mut self.works, outer)
    }

    /// The type before the stars of a declaration that stands at a place, or none where it is refused.
    pub fn base(
        &mut self,
        alloc: Global,
        early: &Early,
        b: &Base,
        at: Pos,
    ) -> Result<Option<Based>, NoMemory>
        ensures value { IfOk result (λ found. option_map based_of found ≡ (attempted (wired.base_of (early_env early.now) [] at (base_of b.now)) (now self.old)).0) }
        ensures state { OnOk result (now self.new ≡ (attempted (wired.base_of (early_env early.now) [] at (base_of b.now)) (now self.old)).1) }
    {
        base_in(alloc, early, &mut self.works, b, at)
    }

    /// The name of a variable comes in force, behind the type before its stars, where that is not refused.
    pub fn variable(
        &mut self,
        alloc: Global,
        early: &Early,
        b: &Option<Based>,
        said: bool,
        v: &Variable,
    ) -> Result<(), NoMemory>
        ensures { (m : Module) → OnOk result (spec.variable_by (early_env early.now) m (option_map based_of b.now) said (variable_of v.now) (now self.old) ≡ Ok (tt, now self.new)) }
    {
        variable_in(alloc, early, &mut self.works, b, said, v)
    }

    /// The name of a type, or a tag, comes in force in a block.
    pub fn declare_type(
        &mut self,
        alloc: Global,
        early: &Early,
        d: &Decl,
        at: Pos,
    ) -> Result<(), NoMemory>
        ensures { OnOk result (type_in_force (early_env early.now) at (decl_of d.now) (now self.old) ≡ Ok (tt, now self.new)) }
    {
        declare_type_in(alloc, early, &mut self.works, d, at)
    }

    /// The name of a parameter comes in force, where it has one.
    pub fn parameter(
        &mut self,
        alloc: Global,
        early: &Early,
        at: Pos,
        p: &Param,
    ) -> Result<(), NoMemory>
        ensures { (m : Module) → OnOk result (spec.param_in_force (early_env early.now) m at (param_of p.now) (now self.old) ≡ Ok (tt, now self.new)) }
    {
        parameter_in(alloc, early, &mut self.works, at, p)
    }

    /// The name of the parameter in the bracket of a command or an event comes in force.
    pub fn bracket(
        &mut self,
        alloc: Global,
        early: &Early,
        at: Pos,
        p: &Option<Param>,
    ) -> Result<(), NoMemory>
        ensures { (m : Module) → OnOk result (spec.bracket_in_force (early_env early.now) m at (option_map param_of p.now) (now self.old) ≡ Ok (tt, now self.new)) }
    {
        bracket_in(alloc, early, &mut self.works, at, p)
    }

    /// The type and the number of a constant, or none where it is refused.
    pub fn constant(
        &mut self,
        alloc: Global,
        early: &Early,
        e: &Expr,
    ) -> Result<Option<Constant>, NoMemory>
        ensures value { IfOk result (λ c. c ≡ constant_of (wired.whole_constant (early_env early.now) [] (expr_of e.now) (now self.old))) }
        ensures kept { now self.new ≡ now self.old }
    {
        constant_in(alloc, early, &mut self.works, e)
    }
}

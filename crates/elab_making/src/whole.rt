//! The whole program so far, and what comes to it behind what it has.

ghost use Rattle.std.specs.Prelude.{◌≡◌, ◌++◌, IfOk, OnOk, length, map};
ghost use Rattle.elab_facts.specs.View.{declared_of};
ghost use Rattle.elab_making.specs.Does.{Does};
ghost use Rattle.elab_making.specs.View.{whole_of};
ghost use Rattle.elab_meaning.specs.View.{state_of};
ghost use Rattle.elab_objects.specs.View.{boot_of, variable_of};
ghost use Rattle.nesc_core.specs.View.{body_of, stmt_of, warning_of};
ghost use Rattle.program_meaning.specs.Making as spec;
ghost use Rattle.program_meaning.specs.Modules as modules;

use elab_facts::Declared;
use elab_meaning::Work;
use elab_objects::{Boot, Variable};
use nesc_core::{Body, CoreStmt, CoreType, Warning};
use nm_base::{Fault, NoMemory};
use std::alloc::Global;

/// Names, structs and what bodies ask for are in the work. The initial values of variables are statements of the boot function, and its
/// locals stand beside those of the work. A handler is its line and the number of its body.
#[derive(Drop)]
pub struct Whole {
    pub work: Work,
    pub declared: Vec<Declared>,
    pub variables: Vec<Variable>,
    pub initial: Vec<CoreStmt>,
    pub boot_locals: Vec<CoreType>,
    pub boot: Option<Boot>,
    pub bodies: Vec<Body>,
    pub handlers: Vec<(u8, u32)>,
    pub dispatch: Vec<Body>,
    pub warnings: Vec<Warning>,
}

fn no_work(alloc: Global) -> Work
    ensures { state_of result ≡ modules.no_state }
{
    Work {
        names: Vec::new(alloc),
        tags: Vec::new(alloc),
        first_name: 0,
        first_tag: 0,
        structs: Vec::new(alloc),
        locals: Vec::new(alloc),
        taken: Vec::new(alloc),
        asked: Vec::new(alloc),
    }
}

/// Where elaboration begins: there is nothing yet.
pub fn nothing(alloc: Global) -> Whole
    ensures { whole_of result ≡ modules.nothing }
{
    Whole {
        work: no_work(alloc),
        declared: Vec::new(alloc),
        variables: Vec::new(alloc),
        initial: Vec::new(alloc),
        boot_locals: Vec::new(alloc),
        boot: None,
        bodies: Vec::new(alloc),
        handlers: Vec::new(alloc),
        dispatch: Vec::new(alloc),
        warnings: Vec::new(alloc),
    }
}

#[tactic(auto, using(crate::proofs::Steps::lists))]
fn append_stmts(code: &mut Vec<CoreStmt>, more: Vec<CoreStmt>) -> Result<(), NoMemory>
    ensures { OnOk result (map stmt_of code.new.items ≡ map stmt_of code.old.items ++ map stmt_of more.items) }
{
    let mut more = more;
    code.append(&mut more)?;
    Ok(())
}

impl Whole {
    /// A function, a task, or an implementation of an item is declared.
    pub fn add_declared(&mut self, declared: Declared) -> Result<(), Fault>
        ensures { Does (λ _. tt) result (whole_of self.new) (spec.add_declared (declared_of declared) (whole_of self.old)) }
    {
        Ok(self.declared.push(declared)?)
    }

    /// A variable, whose number is that of those before it.
    pub fn add_variable(&mut self, variable: Variable) -> Result<(), Fault>
        ensures { Does (λ _. tt) result (whole_of self.new) (spec.add_variable (variable_of variable) (whole_of self.old)) }
    {
        Ok(self.variables.push(variable)?)
    }

    /// Initial values of a variable, which the boot function sets before anything else.
    pub fn add_initial(&mut self, code: Vec<CoreStmt>) -> Result<(), Fault>
        ensures { Does (λ _. tt) result (whole_of self.new) (spec.add_initial (map stmt_of code.items) (whole_of self.old)) }
    {
        Ok(append_stmts(&mut self.initial, code)?)
    }

    /// A body, whose number is that of those before it.
    pub fn add_body(&mut self, body: Body) -> Result<(), Fault>
        ensures { Does (λ _. tt) result (whole_of self.new) (spec.add_body (body_of body) (whole_of self.old)) }
    {
        Ok(self.bodies.push(body)?)
    }

    /// The handler of a line is this body. A line past 255 finds no memory.
    pub fn add_handler(&mut self, line: u32, body: u32) -> Result<(), Fault>
        ensures { Does (λ _. tt) result (whole_of self.new) (spec.add_handler line body (whole_of self.old)) }
    {
        let Ok(line) = u8::try_from(line) else {
            return Err(Fault::NoMemory);
        };
        Ok(self.handlers.push((line, body))?)
    }

    /// A dispatch function.
    pub fn add_dispatch(&mut self, body: Body) -> Result<(), Fault>
        ensures { Does (λ _. tt) result (whole_of self.new) (spec.add_dispatch (body_of body) (whole_of self.old)) }
    {
        Ok(self.dispatch.push(body)?)
    }

    /// A warning.
    pub fn add_warning(&mut self, warning: Warning) -> Result<(), Fault>
        ensures { Does (λ _. tt) result (whole_of self.new) (spec.add_warning (warning_of warning) (whole_of self.old)) }
    {
        Ok(self.warnings.push(warning)?)
    }

    /// The program boots by this function.
    pub fn boots_by(&mut self, boot: Boot) -> Result<(), Fault>
        ensures { Does (λ _. tt) result (whole_of self.new) (spec.boots_by (boot_of boot) (whole_of self.old)) }
    {
        self.boot = Some(boot);
        Ok(())
    }

    /// What was declared is no longer looked at: another module begins.
    pub fn nothing_declared(&mut self, alloc: Global) -> Result<(), Fault>
        ensures { Does (λ _. tt) result (whole_of self.new) (spec.nothing_declared (whole_of self.old)) }
    {
        self.declared = Vec::new(alloc);
        Ok(())
    }

    /// The number of the next body. One that is no u32 finds no memory.
    pub fn next_body(&self) -> Result<u32, NoMemory>
        ensures { IfOk result (λ n. n ≡ length (whole_of self.now).bodies) }
    {
        u32::try_from(self.bodies.len()).map_err(|_| NoMemory)
    }

    /// The number of the next variable. One that is no u32 finds no memory.
    pub fn next_variable(&self) -> Result<u32, NoMemory>
        ensures { IfOk result (λ n. n ≡ length (whole_of self.now).variables) }
    {
        u32::try_from(self.variables.len()).map_err(|_| NoMemory)
    }
}

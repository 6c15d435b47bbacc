//! The bodies of the tasks.

ghost use Rattle.std.specs.Prelude.{◌≡◌, ◌+◌, ◌++◌, flat_map, length, map, IfOk, OnOk};
ghost use Rattle.body_meaning.specs.View.{decl_of};
ghost use Rattle.program_meaning.specs.Numbers as spec;
ghost use Rattle.elab_targets.specs.View.{application_of, instance_of};

use crate::application::{Application, Instance};
use crate::definitions::definition_in;
use crate::numbers::plus;
use nesc_tree::{Decl, FuncKind};
use nm_base::NoMemory;
use std::alloc::Global;

fn push_task(tasks: &mut Vec<u32>, number: u32, kind: FuncKind) -> Result<(), NoMemory>
    ensures { OnOk result (tasks.new.items ≡ tasks.old.items ++ spec.task_body number kind) }
{
    match kind {
        FuncKind::Task => tasks.push(number)?,
        FuncKind::Plain => {}
        FuncKind::Command => {}
        FuncKind::Event => {}
    }
    Ok(())
}

// Adds the tasks among these declarations, whose first body has this number, and returns the number behind the last one.
fn push_tasks(tasks: &mut Vec<u32>, first: u32, decls: &[Decl]) -> Result<u32, NoMemory>
    ensures tasks { OnOk result (tasks.new.items ≡ tasks.old.items ++ spec.task_bodies_from first (spec.definitions (map decl_of decls.now))) }
    ensures number { IfOk result (λ n. n ≡ first + length (spec.definitions (map decl_of decls.now))) }
{
    let mut number = first;
    for decl in decls {
        if let Some(head) = definition_in(decl) {
            push_task(tasks, number, head.kind)?;
            number = plus(number, 1)?;
        }
    }
    Ok(number)
}

fn header_tasks(tasks: &mut Vec<u32>, headers: &[&[Decl]]) -> Result<u32, NoMemory>
    ensures tasks { OnOk result (tasks.new.items ≡ tasks.old.items ++ spec.task_bodies_from 0 (spec.definitions (flat_map (λ h. map decl_of h.now) headers.now))) }
    ensures number { IfOk result (λ n. n ≡ length (spec.definitions (flat_map (λ h. map decl_of h.now) headers.now))) }
{
    let mut number = 0;
    for decls in headers {
        number = push_tasks(tasks, number, decls)?;
    }
    Ok(number)
}

fn instance_tasks(tasks: &mut Vec<u32>, first: u32, instances: &[Instance]) -> Result<(), NoMemory>
    ensures { OnOk result (tasks.new.items ≡ tasks.old.items ++ spec.task_bodies_from first (spec.definitions_in (map instance_of instances.now))) }
{
    let mut number = first;
    for instance in instances {
        number = push_tasks(tasks, number, instance.decls)?;
    }
    Ok(())
}

/// The bodies of the tasks, in the order of their numbers.
pub fn tasks_of(alloc: Global, app: &Application) -> Result<Vec<u32>, NoMemory>
    ensures { IfOk result (λ v. v.items ≡ spec.tasks_of (application_of app.now)) }
{
    let mut tasks = Vec::new(alloc);
    let first = header_tasks(&mut tasks, app.headers.as_slice())?;
    instance_tasks(&mut tasks, first, app.instances.as_slice())?;
    Ok(tasks)
}

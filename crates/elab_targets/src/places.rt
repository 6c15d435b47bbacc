//! Places of functions, tasks and implementations of items by name.

ghost use Rattle.std.specs.Prelude.{◌≡◌, [], ◌∷◌, ◌++◌, List, map, Some, OnOk, true};
ghost use Rattle.nesc_tree.specs.declared.declarations.FuncKind.TheVariants as kind;
ghost use Rattle.body_meaning.specs.Tree as tree;
ghost use Rattle.body_meaning.specs.View.{decl_of, head_of};
ghost use Rattle.program_meaning.specs.Numbers as spec;
ghost use Rattle.elab_targets.specs.Places.{ArePlaces, IsDefined, IsItemKept};

use crate::definitions::definition_in;
use crate::firsts::Firsts;
use crate::items::ItemPlaces;
use crate::numbers::plus;
use nesc_tree::{Decl, FuncHead, FuncKind};
use nm_base::{Name, NoMemory};
use std::alloc::Global;

/// The places of functions, tasks and implementations of items among the definitions of headers or of a module, by name. Of two definitions
/// of one name the first counts.
#[derive(Drop)]
pub struct Places {
    functions: Firsts,
    task_places: Firsts,
    implementations: ItemPlaces,
    defaults: ItemPlaces,
    pub(crate) bodies: u32,
    pub(crate) tasks: u32,
}

impl Places {
    /// Nothing is defined.
    pub fn new(alloc: Global) -> Places
        ensures { ArePlaces [] result }
    {
        Places {
            functions: Firsts::new(alloc),
            task_places: Firsts::new(alloc),
            implementations: ItemPlaces::new(alloc),
            defaults: ItemPlaces::new(alloc),
            bodies: 0,
            tasks: 0,
        }
    }

    fn add_function(&mut self, head: &FuncHead) -> Result<(), NoMemory>
        ensures { OnOk result (head.now.kind ≡ kind.Plain → IsDefined (head_of head.now) self.old self.new) }
    {
        let bodies = plus(self.bodies, 1)?;
        self.functions.keep(&head.name, self.bodies)?;
        self.bodies = bodies;
        Ok(())
    }

    fn add_task(&mut self, head: &FuncHead) -> Result<(), NoMemory>
        ensures { OnOk result (head.now.kind ≡ kind.Task → IsDefined (head_of head.now) self.old self.new) }
    {
        let bodies = plus(self.bodies, 1)?;
        let tasks = plus(self.tasks, 1)?;
        self.functions.keep(&head.name, self.bodies)?;
        self.task_places.keep(&head.name, self.tasks)?;
        self.bodies = bodies;
        self.tasks = tasks;
        Ok(())
    }

    fn keep_named(&mut self, head: &FuncHead, item: &Name) -> Result<(), NoMemory>
        ensures { OnOk result (head.now.item ≡ Some item.now → IsItemKept (head_of head.now) self.old self.new) }
    {
        if head.is_default {
            self.defaults.keep(&head.name, item, self.bodies)
        } else {
            self.implementations.keep(&head.name, item, self.bodies)
        }
    }

    fn keep_item(&mut self, head: &FuncHead) -> Result<(), NoMemory>
        ensures { OnOk result (IsItemKept (head_of head.now) self.old self.new) }
    {
        match &head.item {
            None => Ok(()),
            Some(item) => self.keep_named(head, item),
        }
    }

    fn add_item(&mut self, head: &FuncHead) -> Result<(), NoMemory>
        ensures { OnOk result (spec.is_item_kind head.now.kind ≡ true → IsDefined (head_of head.now) self.old self.new) }
    {
        let bodies = plus(self.bodies, 1)?;
        self.keep_item(head)?;
        self.bodies = bodies;
        Ok(())
    }

    fn define(&mut self, head: &FuncHead) -> Result<(), NoMemory>
        ensures { OnOk result (IsDefined (head_of head.now) self.old self.new) }
    {
        match head.kind {
            FuncKind::Plain => self.add_function(head),
            FuncKind::Task => self.add_task(head),
            FuncKind::Command => self.add_item(head),
            FuncKind::Event => self.add_item(head),
        }
    }

    fn add_one(&mut self, decl: &Decl) -> Result<(), NoMemory>
        ensures { OnOk result ((ds : List tree.Decl) → ArePlaces ds self.old → ArePlaces (ds ++ decl_of decl.now ∷ []) self.new) }
    {
        match definition_in(decl) {
            None => Ok(()),
            Some(head) => self.define(head),
        }
    }

    /// Adds the definitions among these declarations to those that were told, in time linear in their names.
    pub fn add(&mut self, decls: &[Decl]) -> Result<(), NoMemory>
        ensures { OnOk result ((ds : List tree.Decl) → ArePlaces ds self.old → ArePlaces (ds ++ map decl_of decls.now) self.new) }
    {
        for decl in decls {
            self.add_one(decl)?;
        }
        Ok(())
    }

    /// The place of a function or a task among the functions that have bodies.
    pub fn function(&self, name: &Name) -> Option<u32>
        ensures { (ds : List tree.Decl) → ArePlaces ds self.now → result ≡ spec.place_of (spec.is_function name.now) ds }
    {
        self.functions.get(name)
    }

    /// The place of a task among the tasks.
    pub fn task(&self, name: &Name) -> Option<u32>
        ensures { (ds : List tree.Decl) → ArePlaces ds self.now → result ≡ spec.task_place name.now ds }
    {
        self.task_places.get(name)
    }

    /// The place of the implementation of an item, or of its default, among the functions that have bodies.
    pub fn implementation(&self, element: &Name, item: &Name, is_default: bool) -> Option<u32>
        ensures { (ds : List tree.Decl) → ArePlaces ds self.now → result ≡ spec.place_of (spec.implements element.now item.now is_default) ds }
    {
        if is_default {
            self.defaults.get(element, item)
        } else {
            self.implementations.get(element, item)
        }
    }

    /// How many functions have bodies.
    pub fn bodies(&self) -> u32
        ensures { (ds : List tree.Decl) → ArePlaces ds self.now → result ≡ spec.bodies_in ds }
    {
        self.bodies
    }

    /// How many tasks have bodies.
    pub fn tasks(&self) -> u32
        ensures { (ds : List tree.Decl) → ArePlaces ds self.now → result ≡ spec.tasks_in ds }
    {
        self.tasks
    }
}

//! What elaboration is given: the declarations of headers and modules, the instances of modules, and what their wires reach.

use elab_meaning::{Struct, Unique, UniqueCount};
use nesc_core::CoreType;
use nesc_tree::{Decl, Sig, TypeSpec};
use nesc_types::Constant;
use nm_base::{IntType, List, Name, Pos};
use wire_targets::End;

/// The ends that paths of wires reach where a call names the value, in order.
#[derive(Drop)]
pub struct Wired {
    pub value: u16,
    pub ends: Vec<End>,
}

/// An interface that a module provides or uses, with the names of its type parameters, its items, the arguments of these parameters, and the
/// type of the parameter in its bracket; and the ends that are reached for each value that a wire names, and for all others (nesC 1.3
/// Reference, 4 to 6 and 9).
#[derive(Drop)]
pub struct Element<'u> {
    pub provides: bool,
    pub name: &'u Name,
    pub params: &'u [Name],
    pub items: &'u [Sig],
    pub args: &'u [TypeSpec],
    pub parameter: Option<IntType>,
    pub named: Vec<Wired>,
    pub others: Vec<End>,
    pub at: Pos,
}

/// What a generic component's parameter stands for: a type, with whether it is const, or a constant.
#[derive(Drop)]
pub enum Argument {
    Type(CoreType, bool),
    Constant(Constant),
}

/// A parameter of a generic component, and what it stands for.
#[derive(Drop)]
pub struct Given {
    pub name: Name,
    pub argument: Argument,
}

/// An instance of a module; that of a configuration has neither elements nor declarations. The copy is its number among the instances of a
/// generic component.
#[derive(Drop)]
pub struct Instance<'u> {
    pub component: &'u Name,
    pub copy: Option<u32>,
    pub given: Vec<Given>,
    pub elems: Vec<Element<'u>>,
    pub uniques: List<Unique>,
    pub decls: &'u [Decl],
}

/// The declarations of each header in reading order, the numbers of `unique` in them, and how often each text is used; the structs that were
/// met behind those of headers where types stand in wires, in the order in which their definitions ended; and the instances. What is given
/// to instances names structs by that order: those that headers declare outside functions, and then these.
#[derive(Drop)]
pub struct Application<'u> {
    pub headers: Vec<&'u [Decl]>,
    pub uniques: List<Unique>,
    pub counts: List<UniqueCount>,
    pub structs: Vec<Struct>,
    pub instances: Vec<Instance<'u>>,
}

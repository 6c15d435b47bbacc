//! Names and tags in force, and what is told to a body.

ghost use Rattle.std.specs.Prelude.{◌≡◌, bytes_eq};
ghost use Rattle.elab_meaning.specs.View.{entry_of, tag_of};

use nesc_core::{CoreType, Field, Layout};
use nm_base::{IntType, List, Name, Pos};

/// What an ordinary name names. A task has its place among the tasks.
#[derive(Drop)]
pub enum Meaning {
    Object(u32, CoreType, bool),
    Local(u32, CoreType, bool),
    Function(u32, List<CoreType>, CoreType),
    Task(u32),
    Constant(IntType, i64),
    Type(CoreType, bool),
}

/// A name in force.
#[derive(Drop)]
pub struct Entry {
    pub name: Name,
    pub meaning: Meaning,
}

/// What a tag names.
#[derive(Clone, Copy, PartialEq, Eq, Debug)]
pub enum Kind {
    Struct(u32),
    Enum,
}

/// A tag in force.
#[derive(Drop)]
pub struct Tag {
    pub name: Name,
    pub kind: Kind,
}

/// A struct whose definition has ended, with whether each field is const.
#[derive(Drop)]
pub struct Struct {
    pub fields: Vec<Field>,
    pub consts: Vec<bool>,
    pub layout: Layout,
}

/// A use of `unique`, by its place.
#[derive(Clone, Copy)]
pub struct Unique {
    pub at: Pos,
    pub number: u32,
}

/// How often `unique` is used with a text.
#[derive(Drop)]
pub struct UniqueCount {
    pub text: Name,
    pub count: u32,
}

/// A command that may be called or an event that may be signalled.
#[derive(Drop)]
pub struct Item {
    pub element: Name,
    pub name: Name,
    pub is_signal: bool,
    /// The type of the element's parameter.
    pub parameter: Option<IntType>,
    pub params: List<CoreType>,
    pub result: CoreType,
    /// The one body that a call reaches, where it has no parameter and one target.
    pub body: Option<u32>,
}

/// What is told to the bodies of an instance.
#[derive(Drop)]
pub struct Env {
    pub instance: u32,
    pub uniques: List<Unique>,
    pub counts: List<UniqueCount>,
    pub items: List<Item>,
    pub first_dispatch: u32,
}

/// Whether the entry has the name.
pub fn is_named(entry: &Entry, name: &Name) -> bool
    ensures { result ≡ bytes_eq (entry_of entry.now).name name.now }
{
    entry.name == *name
}

/// Whether the tag has the name.
pub fn is_tagged(tag: &Tag, name: &Name) -> bool
    ensures { result ≡ bytes_eq (tag_of tag.now).name name.now }
{
    tag.name == *name
}

//! Elements of a module, and what paths of wires reach from them.

ghost use Rattle.std.specs.Prelude.{◌≡◌};
ghost use Rattle.nesc_unwired.specs.Told.{Reach};

use nesc_tree::Sig;
use nm_base::{IntType, Name, Pos};

/// An element of a module: whether it provides its interface, its name, the type of its bracket's parameter, the items of its interface,
/// and its place.
#[derive(Clone, Copy)]
pub struct Element<'u> {
    pub provides: bool,
    pub name: &'u Name,
    pub parameter: Option<IntType>,
    pub items: &'u [Sig],
    pub at: Pos,
}

/// What paths of wires reach from the elements of a module.
pub trait Reaches {
    ghost reach: { Self → Reach };

    /// Whether they reach an implementation from the element of this number, with this value of its parameter.
    fn reaches(&self, element: usize, value: Option<u64>) -> bool
        ensures { result ≡ reach self.now element value };
}

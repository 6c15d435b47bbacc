//! Trees of nesC, and the language of forms that tokens spell them by.
#![tactic(auto)]

mod components;
mod contexts;
mod declarations;
pub mod level;
mod names;
mod operand;
mod sorts;
mod tree;

pub use components::{
    ConfLine, Config, Elem, GenericArg, GenericParam, Head, Interface, Module, Part, Sig, Unit,
    WireEnd,
};
pub use contexts::{Jumps, Site};
pub use declarations::{
    Attr, AttrArg, Decl, ForStart, FuncHead, FuncKind, Init, Stmt, VarGroup, Variable,
};
pub use names::{Change, TypeNames};
pub use operand::{
    Arguments, CastType, Declarators, Declared, Dims, Fields, Grouped, Inits, Item, Items, Operand,
    Qualifiers, Width,
};
pub use sorts::{Sort, ahead, same_sort, sort_of};
pub use tree::{
    Base, Declarator, EnumItem, Expr, FieldGroup, InOp, Param, PostOp, PreOp, TypeSpec,
};

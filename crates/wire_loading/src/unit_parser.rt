//! What parses the files of an application.

ghost use Rattle.std.specs.Prelude.{◌≡◌, ℕ, Bool, true, false, List as ListOf, Result as ResultOf, OnErr};
ghost use Rattle.nm_base.specs.declared.fault.Fault.{Fault as FaultOf};
ghost use Rattle.nm_base.specs.declared.token.Token.{Token as TokenOf};
ghost use Rattle.nesc_tree.specs.declared.components.Unit.{Unit as UnitOf};
ghost use Rattle.nesc_tree.specs.declared.declarations.Decl.{Decl as DeclOf};
ghost use Rattle.nesc_tree.specs.Sorts.{Names};
ghost use Rattle.nesc_preproc.specs.Kept.{IsNoReadFault};

use nesc_tree::{Decl, TypeNames, Unit};
use nm_base::{Fault, List, Name, Token};
use std::alloc::Global;

/// What parses the tokens of a file, where some type names are in force. `Declares` tells what declarations alone give, and
/// `Parses` what an interface or a component of a name gives; `file` is where a text without tokens is refused.
pub trait UnitParser: Drop {
    ghost Declares: { ℕ → ListOf TokenOf → Names → Names → ResultOf (ListOf DeclOf) FaultOf → Type 0 };

    ghost Parses: { (is_interface : Bool) → ℕ → ListOf TokenOf → ListOf ℕ → Names → Names → ResultOf UnitOf FaultOf → Type 0 };

    /// Parses declarations; after a refusal the names are no more looked at.
    fn parse_declarations(
        &self,
        alloc: Global,
        ts: &[Token],
        names: &mut TypeNames,
        file: u32,
    ) -> Result<List<Decl>, Fault>
        ensures parsed { Declares file ts.now names.old names.new result }
        ensures says { IsNoReadFault result };

    /// Parses a component of this name, with the declarations before it.
    fn parse_component(
        &self,
        alloc: Global,
        ts: &[Token],
        name: &Name,
        names: &mut TypeNames,
        file: u32,
    ) -> Result<Unit, Fault>
        ensures parsed { Parses false file ts.now name.now names.old names.new result }
        ensures kept { OnErr result (names.new ≡ names.old) }
        ensures says { IsNoReadFault result };

    /// Parses an interface of this name, with the declarations before it.
    fn parse_interface(
        &self,
        alloc: Global,
        ts: &[Token],
        name: &Name,
        names: &mut TypeNames,
        file: u32,
    ) -> Result<Unit, Fault>
        ensures parsed { Parses true file ts.now name.now names.old names.new result }
        ensures kept { OnErr result (names.new ≡ names.old) }
        ensures says { IsNoReadFault result };
}

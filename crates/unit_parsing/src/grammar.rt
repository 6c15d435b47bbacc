//! What parses the files of an application.

ghost use Rattle.std.specs.Prelude.{◌≡◌};
ghost use Rattle.nesc_preproc.specs.Kept.{IsNoReadFault};
ghost use Rattle.unit_parsing.specs.Parsing as spec;

use nesc_parse_comp::{parse_component, parse_interface};
use nesc_parse_list::parse_decls;
use nesc_tree::{Decl, TypeNames, Unit};
use nm_base::{Fault, List, Name, Refusal, Token};
use std::alloc::Global;
use wire_loading::UnitParser;

// The declarations that all the tokens spell.
fn declarations(
    alloc: Global,
    ts: &[Token],
    names: &mut TypeNames,
    file: u32,
) -> Result<List<Decl>, Fault>
    ensures parsed { spec.Declares file ts.now names.old names.new result }
    ensures says { IsNoReadFault result }
{
    let (decls, end) = parse_decls(alloc, ts, 0, names, file)?;
    match ts.get(end) {
        None => Ok(decls),
        Some(token) => Err(Fault::Refused(Refusal::Syntax(token.pos))),
    }
}

/// Parses as the grammar reads: components and interfaces of whole files, and declarations up to the end.
#[derive(Debug, Clone, Copy)]
pub struct Grammar;

impl UnitParser for Grammar {
    ghost use Rattle.unit_parsing.specs.Parsing.{Declares, Parses};

    ghost Declares = { Declares };

    ghost Parses = { Parses };

    fn parse_declarations(
        &self,
        alloc: Global,
        ts: &[Token],
        names: &mut TypeNames,
        file: u32,
    ) -> Result<List<Decl>, Fault> {
        declarations(alloc, ts, names, file)
    }

    fn parse_component(
        &self,
        alloc: Global,
        ts: &[Token],
        name: &Name,
        names: &mut TypeNames,
        file: u32,
    ) -> Result<Unit, Fault> {
        parse_component(alloc, ts, name, names, file)
    }

    fn parse_interface(
        &self,
        alloc: Global,
        ts: &[Token],
        name: &Name,
        names: &mut TypeNames,
        file: u32,
    ) -> Result<Unit, Fault> {
        parse_interface(alloc, ts, name, names, file)
    }
}

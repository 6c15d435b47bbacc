//! Reading declarations from a place of a list of tokens.

ghost use Rattle.std.specs.Prelude.{◌≡◌, ◌≤◌, OnErr, length};
ghost use Rattle.nesc_tree.specs.declared.contexts.Site.TheVariants.{Header};
ghost use Rattle.nesc_parse_list.specs.Listed as listed;

use crate::lists::{Declarations, ended};
use nesc_left_out::{fault_of, refused};
use nesc_parse_types::Stop;
use nesc_tree::{Decl, Site, TypeNames};
use nm_base::{Fault, List, Token};
use std::alloc::Global;

/// Reads the declarations of a header or a module from `at` on, and gives the place behind them: the end, or a closing brace, `module`,
/// `configuration`, `generic` or `interface`. Afterwards the names are what the declarations make of them; after a refusal they are what
/// they were. E07 or E08 comes where no declarations stand before such a place, at the first token that no declarations go on with; Limit(Depth)
/// where a tree has more than 200 levels.
pub fn parse_decls_of(
    alloc: Global,
    ts: &[Token],
    at: usize,
    names: &mut TypeNames,
    file: u32,
    site: Site,
) -> Result<(List<Decl>, usize), Fault>
    requires { at ≤ length ts.now }
    ensures parsed { listed.Parses site file ts.now at names.old names.new result }
    ensures kept { OnErr result (names.new ≡ names.old) }
{
    match ended(alloc, names, site, &ts[at..]) {
        Ok((list, rest)) => Ok((list, ts.len() - rest.len())),
        Err(Stop::Memory) => Err(Fault::NoMemory),
        Err(Stop::Deep(rest)) => Err(fault_of(
            &Declarations { site },
            alloc,
            ts,
            at,
            names,
            file,
            Stop::Deep(rest),
        )),
        Err(Stop::Syntax(rest)) => Err(refused(
            &Declarations { site },
            alloc,
            ts,
            at,
            names,
            file,
            rest,
        )),
    }
}

/// Reads the declarations of a header.
pub fn parse_decls(
    alloc: Global,
    ts: &[Token],
    at: usize,
    names: &mut TypeNames,
    file: u32,
) -> Result<(List<Decl>, usize), Fault>
    requires { at ≤ length ts.now }
    ensures parsed { listed.Parses Header file ts.now at names.old names.new result }
    ensures kept { OnErr result (names.new ≡ names.old) }
{
    parse_decls_of(alloc, ts, at, names, file, Site::Header)
}

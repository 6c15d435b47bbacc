//! Components made of their parts.

ghost use Rattle.std.specs.Prelude.{◌≡◌};
ghost use Rattle.nesc_grammar.specs.Components as spec;
ghost use Rattle.nesc_parse_comp.specs.Reads as reads;

use nesc_tree::{ConfLine, Config, Decl, Head, Module, Part, Unit};
use nm_base::List;

pub fn module_of(head: Head, decls: List<Decl>) -> Part
    ensures { result ≡ reads.module_of head decls }
{
    Part::Module(Module { head, decls })
}

pub fn config_of(head: Head, lines: List<ConfLine>) -> Part
    ensures { result ≡ reads.config_of head lines }
{
    Part::Config(Config { head, lines })
}

pub fn unit_of(decls: List<Decl>, part: Part) -> Unit
    ensures { result ≡ spec.unit_of decls part }
{
    Unit { decls, part }
}

//! What is lent to each instance.

ghost use Rattle.std.specs.Prelude.{◌≡◌};
ghost use Rattle.elab_meaning.specs.View.{state_of};
ghost use Rattle.elab_pieces.specs.Flow.{outer, outer_of};
ghost use Rattle.wire_scopes.specs.View.{base_view};
ghost use Rattle.elab_modules.specs.Parts as parts;

use elab_facts::Declared;
use elab_meaning::Work;
use elab_pieces::Outer;
use elab_targets::{Application, Tables};
use elab_told::Met;
use wire_scopes::Base;

/// The application with its tables, the functions that its headers declare, how many names and tags these have, and which structs the types
/// in wires name.
#[derive(Drop)]
pub(crate) struct Around<'a> {
    pub app: &'a Application<'a>,
    pub tables: &'a Tables,
    pub headers: &'a [Declared],
    pub outer: Outer,
    pub met: &'a Met,
}

/// The scope that is open, with the names and tags in force.
pub(crate) fn outer_in(work: &Work) -> Outer
    ensures { outer_of result ≡ outer (state_of work.now) }
{
    Outer {
        names: work.names.len(),
        tags: work.tags.len(),
        first_name: work.first_name,
        first_tag: work.first_tag,
    }
}

/// How many names and tags the headers have.
pub(crate) fn base_of(outer: Outer) -> Base
    ensures { base_view result ≡ parts.base_of (outer_of outer) }
{
    Base {
        names: outer.names,
        tags: outer.tags,
    }
}

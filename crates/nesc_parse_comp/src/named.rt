//! The name of what a file declares, among its tokens.

ghost use Rattle.std.specs.Prelude.{◌≡◌, Option, Some, None};
ghost use Rattle.nesc_parse_comp.specs.Named as spec;
ghost use Rattle.nesc_parse_comp.specs.Units as units;

use nesc_tree::{Sort, TypeNames, sort_of};
use nm_base::{Name, Pos, Token};

// Whether a name stands behind such a word.
fn opens(sort: Sort) -> bool
    ensures { result ≡ spec.opens sort }
{
    matches!(sort, Sort::Interface | Sort::Module | Sort::Configuration)
}

// The place of the first token, where it is another name.
fn differs(ts: &[Token], name: &Name) -> Option<Pos>
    ensures { result ≡ units.differs name.now (spec.first_of ts.now) }
{
    match ts {
        [] => None,
        [token, ..] => {
            if token.text.as_bytes() == name.as_bytes() {
                None
            } else {
                Some(token.pos)
            }
        }
    }
}

/// The place of the name behind the first `interface`, `module` or `configuration`, where it is another one.
pub fn other_name(names: &TypeNames, ts: &[Token], name: &Name) -> Option<Pos>
    ensures { result ≡ units.other_name name.now ts.now }
{
    let mut rest = ts;
    while let Some((token, behind)) = rest.split_first() {
        if opens(sort_of(names, token)) {
            return differs(behind, name);
        }
        rest = behind;
    }
    None
}

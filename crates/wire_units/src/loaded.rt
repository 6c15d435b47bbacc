//! The files of an application.

ghost use Rattle.std.specs.Prelude.{◌≡◌, option_copied};
ghost use Rattle.wire_units.specs.Units.{name_of, head_of, lines_in, is_component};

use nesc_tree::{ConfLine, Head, Part, Unit};
use nm_base::{Name, Pos};

/// What a file holds, with the place of the name of its component or interface.
#[derive(Drop)]
pub struct Loaded {
    pub unit: Unit,
    pub at: Pos,
}

/// The name of the file's component or interface.
pub fn name_of(part: &Part) -> Option<&Name>
    ensures { option_copied result ≡ name_of part.now }
{
    match part {
        Part::Interface(interface) => Some(&interface.name),
        Part::Module(module) => Some(&module.head.name),
        Part::Config(config) => Some(&config.head.name),
        Part::Header => None,
    }
}

/// The head of a component.
pub fn head_of(part: &Part) -> Option<&Head>
    ensures { option_copied result ≡ head_of part.now }
{
    match part {
        Part::Module(module) => Some(&module.head),
        Part::Config(config) => Some(&config.head),
        Part::Interface(_) | Part::Header => None,
    }
}

/// The lines of a configuration.
pub fn lines_in(part: &Part) -> &[ConfLine]
    ensures { result.now ≡ lines_in part.now }
{
    match part {
        Part::Config(config) => config.lines.as_slice(),
        Part::Interface(_) | Part::Module(_) | Part::Header => &[],
    }
}

/// Whether the file holds a component.
pub fn is_component(part: &Part) -> bool
    ensures { result ≡ is_component part.now }
{
    matches!(part, Part::Module(_) | Part::Config(_))
}

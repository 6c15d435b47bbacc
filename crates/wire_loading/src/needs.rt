//! What a file needs.

ghost use Rattle.std.specs.Prelude.{◌≡◌, ◌++◌, IfOk, OnOk};
ghost use Rattle.wire_loading.specs.Needs as spec;

use nesc_tree::{ConfLine, Elem, Part};
use nm_base::NoMemory;
use std::alloc::Global;
use wire_reading::Need;

// Adds the interfaces of these elements.
#[tactic(auto, using(crate::proofs::Lists::parts))]
fn add_interfaces(needs: &mut Vec<Need>, elems: &[Elem]) -> Result<(), NoMemory>
    ensures { OnOk result (needs.new.items ≡ needs.old.items ++ spec.interfaces elems.now) }
{
    for elem in elems {
        needs.push(Need {
            name: elem.iface.clone()?,
            is_interface: true,
        })?;
    }
    Ok(())
}

fn add_line(needs: &mut Vec<Need>, line: &ConfLine) -> Result<(), NoMemory>
    ensures { OnOk result (needs.new.items ≡ needs.old.items ++ spec.in_line line.now) }
{
    if let ConfLine::Component { name, .. } = line {
        needs.push(Need {
            name: name.clone()?,
            is_interface: false,
        })?;
    }
    Ok(())
}

// Adds the components that these lines name.
#[tactic(auto, using(crate::proofs::Lists::parts))]
fn add_components(needs: &mut Vec<Need>, lines: &[ConfLine]) -> Result<(), NoMemory>
    ensures { OnOk result (needs.new.items ≡ needs.old.items ++ spec.components lines.now) }
{
    for line in lines {
        add_line(needs, line)?;
    }
    Ok(())
}

/// What a file needs: the interfaces of its component's specification, and then the components that its lines name, in the order
/// of the text.
pub fn needs_of(alloc: Global, part: &Part) -> Result<Vec<Need>, NoMemory>
    ensures { IfOk result (λ needs. needs.items ≡ spec.needs_of part.now) }
{
    let mut needs = Vec::new(alloc);
    match part {
        Part::Interface(_) | Part::Header => {}
        Part::Module(module) => add_interfaces(&mut needs, module.head.elems.as_slice())?,
        Part::Config(config) => {
            add_interfaces(&mut needs, config.head.elems.as_slice())?;
            add_components(&mut needs, config.lines.as_slice())?;
        }
    }
    Ok(needs)
}

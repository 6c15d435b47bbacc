//! What a line says.

use nm_base::NoMemory;
use std::alloc::Global;
use wire_targets::{End, Wire};

/// A wiring: the instances from `module` on are modules, and the start has this parameter.
#[derive(Drop)]
pub struct Wiring {
    pub module: u32,
    pub param: Option<u16>,
    pub wires: Vec<Wire>,
}

fn end(text: &str) -> Option<End> {
    let Some((instance, param)) = text.split_once(':') else {
        return Some(End {
            instance: text.parse().ok()?,
            element: 0,
            param: None,
        });
    };
    Some(End {
        instance: instance.parse().ok()?,
        element: 0,
        param: Some(param.parse().ok()?),
    })
}

fn wire(text: &str) -> Option<Wire> {
    let (from, to) = text.split_once('>')?;
    Some(Wire {
        from: end(from)?,
        to: end(to)?,
    })
}

// The parameter; None where the word is no number.
fn param(word: &str) -> Option<Option<u16>> {
    if word == "-" {
        return Some(None);
    }
    Some(Some(word.parse().ok()?))
}

/// The wiring of a line; None where it has another form.
pub fn wiring_of(alloc: Global, text: &str) -> Result<Option<Wiring>, NoMemory> {
    let mut words = text.split_whitespace();
    let module = words.next().and_then(|word| word.parse().ok());
    let param = words.next().and_then(param);
    let mut wires = Vec::new(alloc);
    for word in words {
        let Some(read) = wire(word) else {
            return Ok(None);
        };
        wires.push(read)?;
    }
    let (Some(module), Some(param)) = (module, param) else {
        return Ok(None);
    };
    Ok(Some(Wiring {
        module,
        param,
        wires,
    }))
}

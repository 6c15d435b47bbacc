//! What opens the files of an application.

ghost use Rattle.std.specs.Prelude.{◌≡◌, ◌<◌, ◌-◌, ◌^◌, ◌++◌, ◌∷◌, [], length, Some, Ok, Err, IfOk, OnOk, OnErr};
ghost use Rattle.nm_base.specs.declared.fault.Fault.{Fault as FaultOf};
ghost use Rattle.nesc_preproc.specs.Kept.{IsNoReadFault};
ghost use Rattle.wire_loading.specs.Opened as spec;

use crate::needs::needs_of;
use crate::place::name_place;
use crate::texts::{Text, file_of, text_of};
use crate::unit_parser::UnitParser;
use nesc_preproc::Reading;
use nesc_tree::{TypeNames, Unit};
use nm_base::{Fault, Files};
use std::alloc::Global;
use wire_reading::{Need, Opener};
use wire_units::Loaded;

/// What opens files: a parser, what the preprocessor has read, the type names in force, and what the files hold, in the order of
/// reading.
#[derive(Drop)]
pub struct Loader<P: UnitParser> {
    pub parser: P,
    pub reading: Reading,
    pub names: TypeNames,
    pub units: Vec<Loaded>,
}

fn parsed<P: UnitParser>(
    alloc: Global,
    parser: &P,
    text: &Text,
    need: &Need,
    names: &mut TypeNames,
) -> Result<Unit, Fault>
    ensures parsed { P.Parses need.now.is_interface text.now.file text.now.tokens.items need.now.name names.old names.new result }
    ensures kept { OnErr result (names.new ≡ names.old) }
    ensures says { IsNoReadFault result }
{
    let tokens = text.tokens.as_slice();
    if need.is_interface {
        parser.parse_interface(alloc, tokens, &need.name, names, text.file)
    } else {
        parser.parse_component(alloc, tokens, &need.name, names, text.file)
    }
}

impl<P: UnitParser> Opener for Loader<P> {
    ghost use Rattle.std.specs.Prelude.{◌-◌, ◌^◌, length};
    ghost use Rattle.wire_loading.specs.Opened.{Held, Opens};

    ghost State = { Held };

    ghost state = { λ l. record { known = l.reading; names = l.names; units = l.units.items } };

    ghost Opens = { λ told. Opens P.Parses told };

    ghost left = { λ s. 2 ^ 64 - length s.units };

    fn open<F: Files>(
        &mut self,
        alloc: Global,
        files: &mut F,
        need: &Need,
    ) -> Result<Vec<Need>, Fault> {
        let file = file_of(alloc, &need.name)?;
        let text = text_of(alloc, files, &mut self.reading, &file)?;
        let unit = parsed(alloc, &self.parser, &text, need, &mut self.names)?;
        let needs = needs_of(alloc, &unit.part)?;
        self.units.push(Loaded {
            unit,
            at: name_place(text.tokens.as_slice()),
        })?;
        Ok(needs)
    }
}

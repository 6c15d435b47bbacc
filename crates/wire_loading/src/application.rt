//! The files of an application.

ghost use Rattle.std.specs.Prelude.{◌≡◌, [], Some, Ok, Err, IfOk, OnOk};
ghost use Rattle.nm_base.specs.declared.fault.Fault.{Fault as FaultOf};
ghost use Rattle.nesc_preproc.specs.Sources.{nothing_known};
ghost use Rattle.wire_reading.specs.Order.{IsRefusal};
ghost use Rattle.wire_reading.specs.Told.{Told, Counts};
ghost use Rattle.wire_loading.specs.declared.stopped.Stopped.{Stopped as StoppedOf};
ghost use Rattle.wire_loading.specs.Opened as spec;

use crate::loader::Loader;
use crate::stopped::Stopped;
use crate::texts::text_of;
use crate::unit_parser::UnitParser;
use nesc_preproc::Reading;
use nesc_tree::{Part, TypeNames, Unit};
use nm_base::{Fault, Files, Name, Pos};
use std::alloc::Global;
use wire_reading::read_files;
use wire_units::Loaded;

// Reads the prelude, which is file 0, where nothing was read.
fn read_prelude<F: Files, P: UnitParser>(
    alloc: Global,
    files: &mut F,
    loader: &mut Loader<P>,
) -> Result<(), Fault>
    requires unread { loader.old.reading ≡ Some nothing_known }
    requires unnamed { loader.old.names ≡ [] }
    requires empty { loader.old.units.items ≡ [] }
    ensures outside { Counts result (F.seen files.old) (F.seen files.new) }
    ensures begun { (told : Told) → (F.seen files.old).texts ≡ Some told → OnOk result (spec.Begins P.Declares told (Ok (spec.held loader.new.reading loader.new.names loader.new.units.items))) }
    ensures refused { (told : Told) → (F.seen files.old).texts ≡ Some told → (fault : FaultOf) → result ≡ Err fault → IsRefusal fault → spec.Begins P.Declares told (Err (spec.stopped fault loader.new.reading)) }
{
    let prelude = Name::new(alloc, b"prelude".as_slice())?;
    let text = text_of(alloc, files, &mut loader.reading, &prelude)?;
    let tokens = text.tokens.as_slice();
    let decls = loader
        .parser
        .parse_declarations(alloc, tokens, &mut loader.names, text.file)?;
    loader.units.push(Loaded {
        unit: Unit {
            decls,
            part: Part::Header,
        },
        at: Pos {
            file: 0,
            line: 1,
            col: 1,
        },
    })?;
    Ok(())
}

// Reads the prelude and then the files of an application, where nothing was read.
fn read_all<F: Files, P: UnitParser>(
    alloc: Global,
    files: &mut F,
    loader: &mut Loader<P>,
    app: &Name,
) -> Result<(), Fault>
    requires unread { loader.old.reading ≡ Some nothing_known }
    requires unnamed { loader.old.names ≡ [] }
    requires empty { loader.old.units.items ≡ [] }
    ensures outside { Counts result (F.seen files.old) (F.seen files.new) }
    ensures read { (told : Told) → (F.seen files.old).texts ≡ Some told → OnOk result (spec.ReadsAs P.Declares P.Parses told app.now (Ok (spec.held loader.new.reading loader.new.names loader.new.units.items))) }
    ensures refused { (told : Told) → (F.seen files.old).texts ≡ Some told → (fault : FaultOf) → result ≡ Err fault → IsRefusal fault → spec.ReadsAs P.Declares P.Parses told app.now (Err (spec.stopped fault loader.new.reading)) }
{
    let app = app.clone()?;
    let main = Name::new(alloc, b"MainC".as_slice())?;
    read_prelude(alloc, files, loader)?;
    read_files(alloc, files, loader, app, main)
}

/// Reads the files of an application: the prelude, then each file where it is needed first, the application's own first of all
/// and `MainC` last. What the files hold stands in the loader in this order. Refuses at the first file that is refused: by the
/// preprocessor, or by the parser, at the first place of either; with the refusal comes what was read by then.
pub fn read_application<F: Files, P: UnitParser>(
    alloc: Global,
    files: &mut F,
    parser: P,
    app: &Name,
) -> Result<Loader<P>, Stopped>
    ensures outside { Counts (spec.answer_of result) (F.seen files.old) (F.seen files.new) }
    ensures read { (told : Told) → (F.seen files.old).texts ≡ Some told → IfOk result (λ l. spec.ReadsAs P.Declares P.Parses told app.now (Ok (spec.held l.reading l.names l.units.items))) }
    ensures refused { (told : Told) → (F.seen files.old).texts ≡ Some told → (stopped : StoppedOf) → result ≡ Err stopped → IsRefusal stopped.fault → spec.ReadsAs P.Declares P.Parses told app.now (Err stopped) }
{
    let mut loader = Loader {
        parser,
        reading: Reading::new(alloc),
        names: TypeNames::new(alloc),
        units: Vec::new(alloc),
    };
    match read_all(alloc, files, &mut loader, app) {
        Ok(()) => Ok(loader),
        Err(fault) => Err(Stopped {
            fault,
            reading: loader.reading,
        }),
    }
}

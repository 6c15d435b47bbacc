//! Reading, by a stack of the files that wait.

ghost use Rattle.std.specs.Prelude.{◌≡◌, OnOk, Some, Err};
ghost use Rattle.nm_base.specs.declared.fault.Fault.{Fault as FaultOf};
ghost use Rattle.wire_reading.specs.Order.{Reads, Refuses, IsRefusal};
ghost use Rattle.wire_reading.specs.Told.{Told, Counts};

use crate::opener::{Need, Opener};
use crate::waiting::push_all;
use nm_base::{Fault, Files, Name};
use std::alloc::Global;
use wire_names::NameTable;

/// Reads the files of an application: each is read where it is needed first, and then what it needs, in order and each with
/// its own; `main` is needed last. No file is read twice. Refuses at the first file that is refused, and leaves what was read
/// by then.
pub fn read_files<F: Files, O: Opener>(
    alloc: Global,
    files: &mut F,
    opener: &mut O,
    app: Name,
    main: Name,
) -> Result<(), Fault>
    ensures outside { Counts result (F.seen files.old) (F.seen files.new) }
    ensures read { (told : Told) → (F.seen files.old).texts ≡ Some told → OnOk result (Reads (O.Opens told) app main (O.state opener.old) (O.state opener.new)) }
    ensures refused { (told : Told) → (F.seen files.old).texts ≡ Some told → (fault : FaultOf) → result ≡ Err fault → IsRefusal fault → Refuses (O.Opens told) app main (O.state opener.old) fault (O.state opener.new) }
{
    let mut known = NameTable::new(alloc);
    let mut waiting = Vec::new(alloc);
    waiting.push(Need {
        name: main,
        is_interface: false,
    })?;
    waiting.push(Need {
        name: app,
        is_interface: false,
    })?;
    while let Some(need) = waiting.pop() {
        if known.has(&need.name) {
            continue;
        }
        let needs = opener.open(alloc, files, &need)?;
        known.add(&need.name)?;
        push_all(&mut waiting, needs)?;
    }
    Ok(())
}

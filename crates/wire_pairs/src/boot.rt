//! The wires of an application that is a module.

ghost use Rattle.std.specs.Prelude.{◌≡◌, Some, Ok, Err, OnOk, IfOk};
ghost use Rattle.wire_pairs.specs.declared.facts.Unlinked.{Unlinked as UnlinkedOf};
ghost use Rattle.wire_pairs.specs.Pairs as spec;
ghost use Rattle.wire_pairs.specs.Application.{file_of};
ghost use Rattle.wire_pairs.specs.Lookup.{app_of};

use crate::ends::{NamedEnd, Pair, Sign, Spot};
use crate::facts::{Stop, Unlinked};
use crate::fits::joined;
use crate::lines::pair_of;
use crate::lookup::Lookup;
use crate::named::of_member;
use crate::seen::file_of;
use nesc_tree::{Elem, Part};
use nm_base::{Name, NoMemory, Pos};
use std::alloc::Global;

fn uses_boot(e: &Elem) -> bool
    ensures { result ≡ spec.uses_boot e.now }
{
    !e.provides && e.iface.as_bytes() == b"Boot".as_slice()
}

fn boot_end(
    app: &Lookup,
    pos: Pos,
    main: Option<usize>,
    boot: &Option<Name>,
) -> Result<NamedEnd, Unlinked>
    requires { boot.now ≡ Some spec.boot }
    ensures { result ≡ spec.boot_in (app_of app.now) pos main }
{
    match main {
        None => Err(Unlinked::UnknownName(pos)),
        Some(main) => of_member(app, main, pos, boot),
    }
}

fn boot_linked(
    app: &Lookup,
    element: usize,
    pos: Pos,
    main: Option<usize>,
    boot: &Option<Name>,
) -> Result<Pair, Unlinked>
    requires boot { boot.now ≡ Some spec.boot }
    requires main { main ≡ spec.main_of (app_of app.now) }
    ensures { result ≡ spec.boot_linked (app_of app.now) element pos }
{
    let x = NamedEnd::Element(Spot {
        instance: 0,
        element,
        own: false,
    });
    let y = boot_end(app, pos, main, boot)?;
    let both = joined(app, Sign::Arrow, pos, x, y)?;
    pair_of(app, both, pos, None, None)
}

fn elems_of_application<'u>(app: &Lookup<'u>) -> &'u [Elem]
    ensures { result.now ≡ spec.elems_of_application (file_of (app_of app.now) 0) }
{
    match file_of(app, 0) {
        Some(loaded) => elems_of_module(&loaded.unit.part),
        None => &[],
    }
}

fn elems_of_module(part: &Part) -> &[Elem]
    ensures { result.now ≡ spec.elems_of_module part.now }
{
    match part {
        Part::Module(module) => module.head.elems.as_slice(),
        Part::Config(_) | Part::Interface(_) | Part::Header => &[],
    }
}

fn main_of(alloc: Global, app: &Lookup) -> Result<Option<usize>, NoMemory>
    ensures { IfOk result (λ main. main ≡ spec.main_of (app_of app.now)) }
{
    let name = Name::new(alloc, b"MainC")?;
    Ok(app.singles.get(&name))
}

fn link_boot(
    app: &Lookup,
    element: usize,
    elem: &Elem,
    main: Option<usize>,
    boot: &Option<Name>,
    done: &mut Vec<Pair>,
) -> Result<(), Stop>
    requires boot { boot.now ≡ Some spec.boot }
    requires main { main ≡ spec.main_of (app_of app.now) }
    ensures linked { OnOk result (spec.boot_paired (app_of app.now) element elem.now done.old.items ≡ Ok done.new.items) }
    ensures refused { (unlinked : UnlinkedOf) → result ≡ Err (Stop.Unlinked unlinked) → spec.boot_paired (app_of app.now) element elem.now done.old.items ≡ Err unlinked }
{
    if uses_boot(elem) {
        done.push(boot_linked(app, element, elem.pos, main, boot)?)?;
    }
    Ok(())
}

#[tactic(auto, using(crate::proofs::Steps::boots))]
fn link_all(
    app: &Lookup,
    main: Option<usize>,
    boot: &Option<Name>,
    done: &mut Vec<Pair>,
) -> Result<(), Stop>
    requires boot { boot.now ≡ Some spec.boot }
    requires main { main ≡ spec.main_of (app_of app.now) }
    ensures linked { OnOk result (spec.boots_paired (app_of app.now) 0 (spec.elems_of_application (file_of (app_of app.now) 0)) done.old.items ≡ Ok done.new.items) }
    ensures refused { (unlinked : UnlinkedOf) → result ≡ Err (Stop.Unlinked unlinked) → spec.boots_paired (app_of app.now) 0 (spec.elems_of_application (file_of (app_of app.now) 0)) done.old.items ≡ Err unlinked }
{
    let mut element = 0;
    for elem in elems_of_application(app) {
        link_boot(app, element, elem, main, boot, done)?;
        element += 1;
    }
    Ok(())
}

/// Links each element of an application that is a module, and uses Boot, to `MainC.Boot`.
pub fn link_boots(alloc: Global, app: &Lookup, done: &mut Vec<Pair>) -> Result<(), Stop>
    ensures linked { OnOk result (spec.boots_paired (app_of app.now) 0 (spec.elems_of_application (file_of (app_of app.now) 0)) done.old.items ≡ Ok done.new.items) }
    ensures refused { (unlinked : UnlinkedOf) → result ≡ Err (Stop.Unlinked unlinked) → spec.boots_paired (app_of app.now) 0 (spec.elems_of_application (file_of (app_of app.now) 0)) done.old.items ≡ Err unlinked }
{
    let boot = Some(Name::new(alloc, b"Boot")?);
    let main = main_of(alloc, app)?;
    link_all(app, main, &boot, done)
}

//! The names of the functions that a module declares itself.

ghost use Rattle.std.specs.Prelude.{◌≡◌, [], ◌∷◌, ◌++◌, List, map, IfOk, OnOk};
ghost use Rattle.std.specs.List.{filter};
ghost use Rattle.std.specs.Option.{option_map};
ghost use Rattle.body_meaning.specs.Tree as tree;
ghost use Rattle.body_meaning.specs.Tree.{Head};
ghost use Rattle.body_meaning.specs.View.{decl_of, head_of as head_view};
ghost use Rattle.elab_told.specs.Uses.{AreOwn, heads_in};
ghost use Rattle.program_meaning.specs.Modules as spec;

use elab_uses::is_item_kind;
use nesc_tree::{Decl, FuncHead};
use nm_base::NoMemory;
use program_meaning::Use;
use std::alloc::Global;
use wire_names::NameTable;

fn head_of(decl: &Decl) -> Option<&FuncHead>
    ensures { option_map (λ h. head_view h.now) result ≡ spec.head_of (decl_of decl.now) }
{
    match decl {
        Decl::Typedef { .. } => None,
        Decl::TypeOnly(_, _) => None,
        Decl::Vars(_) => None,
        Decl::Func { head, .. } => Some(head),
    }
}

// A function or a task has its name; a command and an event have that of an element.
fn add_head(names: &mut NameTable, head: &FuncHead) -> Result<(), NoMemory>
    ensures { OnOk result ((hs : List Head) → AreOwn hs names.old → AreOwn (hs ++ head_view head.now ∷ []) names.new) }
{
    if !is_item_kind(head.kind) {
        names.add(&head.name)?;
    }
    Ok(())
}

fn add_decl(names: &mut NameTable, decl: &Decl) -> Result<(), NoMemory>
    ensures { OnOk result ((ds : List tree.Decl) → AreOwn (heads_in ds) names.old → AreOwn (heads_in (ds ++ decl_of decl.now ∷ [])) names.new) }
{
    match head_of(decl) {
        None => Ok(()),
        Some(head) => add_head(names, head),
    }
}

fn own_names(alloc: Global, decls: &[Decl]) -> Result<NameTable, NoMemory>
    ensures { IfOk result (λ t. AreOwn (heads_in (map decl_of decls.now)) t) }
{
    let mut names = NameTable::new(alloc);
    for decl in decls {
        add_decl(&mut names, decl)?;
    }
    Ok(names)
}

fn is_foreign(own: &NameTable, one: &Use) -> bool
    ensures { (hs : List Head) → AreOwn hs own.now → result ≡ spec.is_foreign hs one.now }
{
    !own.has(&one.name)
}

fn without_own(alloc: Global, own: &NameTable, uses: Vec<Use>) -> Result<Vec<Use>, NoMemory>
    ensures { (hs : List Head) → AreOwn hs own.now → IfOk result (λ v. v.items ≡ filter (spec.is_foreign hs) uses.items) }
{
    let mut foreign = Vec::new(alloc);
    for one in uses {
        if is_foreign(own, &one) {
            foreign.push(one)?;
        }
    }
    Ok(foreign)
}

/// Of these uses those of names that no function of the declarations has, in time linear in their names.
pub(crate) fn foreign_uses(
    alloc: Global,
    decls: &[Decl],
    uses: Vec<Use>,
) -> Result<Vec<Use>, NoMemory>
    ensures { IfOk result (λ v. v.items ≡ filter (spec.is_foreign (heads_in (map decl_of decls.now))) uses.items) }
{
    let own = own_names(alloc, decls)?;
    without_own(alloc, &own, uses)
}

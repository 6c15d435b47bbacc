//! Changes of the declared names, each noted so that it can be taken back.

ghost use Rattle.std.specs.Prelude.{◌≡◌, OnOk, true};
ghost use Rattle.nesc_tree.specs.Changes.{all_taken_back};
ghost use Rattle.nesc_tree.specs.Sorts as names_of;
ghost use Rattle.nesc_grammar.specs.Declarations as spec;

use nesc_tree::{Change, TypeNames};
use nm_base::{Name, NoMemory};

// Declares the name, and notes the change.
fn note(
    names: &mut TypeNames,
    changes: &mut Vec<Change>,
    name: &Name,
    is_type: bool,
) -> Result<(), NoMemory>
    ensures declared { OnOk result (names.new ≡ names_of.declared name.now is_type names.old) }
    ensures noted { all_taken_back changes.new.items names.new ≡ all_taken_back changes.old.items names.old }
{
    let change = names.change(name, is_type)?;
    match changes.push(change) {
        Ok(()) => Ok(()),
        Err(_) => {
            names.take_back(change);
            Err(NoMemory)
        }
    }
}

/// From here on the name is a type name.
pub fn declare_type(
    names: &mut TypeNames,
    changes: &mut Vec<Change>,
    name: &Name,
) -> Result<(), NoMemory>
    ensures declared { OnOk result (names.new ≡ names_of.declared name.now true names.old) }
    ensures noted { all_taken_back changes.new.items names.new ≡ all_taken_back changes.old.items names.old }
{
    note(names, changes, name, true)
}

/// From here on the name is no type name: a variable, a function or a parameter hides one.
pub fn hide(names: &mut TypeNames, changes: &mut Vec<Change>, name: &Name) -> Result<(), NoMemory>
    ensures hidden { OnOk result (names.new ≡ spec.hidden name.now names.old) }
    ensures noted { all_taken_back changes.new.items names.new ≡ all_taken_back changes.old.items names.old }
{
    if names.has(name) {
        note(names, changes, name, false)
    } else {
        Ok(())
    }
}

/// Takes the changes back, the last one first: the names are what they were before them.
pub fn give_back(names: &mut TypeNames, changes: Vec<Change>)
    ensures { names.new ≡ all_taken_back changes.items names.old }
{
    let mut left = changes;
    while let Some(change) = left.pop() {
        names.take_back(change);
    }
}

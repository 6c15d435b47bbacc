//! What a type declares in a block.

ghost use Rattle.std.specs.Prelude.{◌≡◌, Ok, Err, OnOk, List as ListOf, ℕ};
ghost use Rattle.wire_instances.specs.declared.plan.Unmet.{Unmet as UnmetOf};
ghost use Rattle.nesc_tree.specs.View.{spec_of, base_of};
ghost use Rattle.wire_units.specs.Block.{fields_in, type_in, base_in, enum_in, struct_in, group_in, groups_in};
ghost use Rattle.wire_units.specs.BlockView.{declarators_of, group_of, groups_of, items_of};

use crate::block::Block;
use crate::scope::declare;
use nesc_tree::{Base, Declarator, EnumItem, FieldGroup, TypeSpec};
use nm_base::{List, Name, Pos};
use std::alloc::Global;
use wire_instances::Stop;
use wire_names::NameTable;

// Declares the fields of one group among the fields of their struct.
fn declare_fields(
    fields: &mut NameTable,
    declarators: &List<Declarator>,
    at: Pos,
) -> Result<(), Stop>
    ensures declared { OnOk result (fields_in at fields.old (declarators_of declarators.now) ≡ Ok fields.new) }
    ensures refused { (unmet : UnmetOf) → result ≡ Err (Stop.Unmet unmet) → fields_in at fields.old (declarators_of declarators.now) ≡ Err unmet }
{
    let mut rest = declarators.as_slice();
    while let Some((declarator, more)) = rest.split_first() {
        declare(fields, &declarator.name, at)?;
        rest = more;
    }
    Ok(())
}

/// Declares what a type of a declaration at this place declares: tags and the constants of enums, also those of its fields.
#[cycle(types)]
pub fn declare_type(alloc: Global, block: &mut Block, t: &TypeSpec, at: Pos) -> Result<(), Stop>
    ensures declared { OnOk result (type_in at (spec_of t.now) block.old ≡ Ok block.new) }
    ensures refused { (unmet : UnmetOf) → result ≡ Err (Stop.Unmet unmet) → type_in at (spec_of t.now) block.old ≡ Err unmet }
{
    declare_base(alloc, block, &t.base, at)
}

#[cycle(types)]
fn declare_base(alloc: Global, block: &mut Block, base: &Base, at: Pos) -> Result<(), Stop>
    ensures declared { OnOk result (base_in at (base_of base.now) block.old ≡ Ok block.new) }
    ensures refused { (unmet : UnmetOf) → result ≡ Err (Stop.Unmet unmet) → base_in at (base_of base.now) block.old ≡ Err unmet }
{
    match base {
        Base::Void | Base::Int(_) | Base::Named(_) => Ok(()),
        Base::Struct(tag, groups) => match groups {
            None => Ok(()),
            Some(groups) => declare_struct(alloc, block, tag, groups, at),
        },
        Base::Enum(tag, items) => match items {
            None => Ok(()),
            Some(items) => declare_enum(block, tag, items, at),
        },
    }
}

fn declare_enum(
    block: &mut Block,
    tag: &Option<Name>,
    items: &List<EnumItem>,
    at: Pos,
) -> Result<(), Stop>
    ensures declared { OnOk result (enum_in at tag.now (items_of items.now) block.old ≡ Ok block.new) }
    ensures refused { (unmet : UnmetOf) → result ≡ Err (Stop.Unmet unmet) → enum_in at tag.now (items_of items.now) block.old ≡ Err unmet }
{
    block.tag(tag, at)?;
    block.items(items.as_slice())
}

#[cycle(types)]
fn declare_struct(
    alloc: Global,
    block: &mut Block,
    tag: &Option<Name>,
    groups: &List<FieldGroup>,
    at: Pos,
) -> Result<(), Stop>
    ensures declared { OnOk result (struct_in at tag.now (groups_of groups.now) block.old ≡ Ok block.new) }
    ensures refused { (unmet : UnmetOf) → result ≡ Err (Stop.Unmet unmet) → struct_in at tag.now (groups_of groups.now) block.old ≡ Err unmet }
{
    block.tag(tag, at)?;
    let mut fields = NameTable::new(alloc);
    declare_groups(alloc, block, groups, &mut fields, at)
}

#[cycle(types)]
#[tactic(auto, using(crate::proofs::Lists::lists))]
fn declare_groups(
    alloc: Global,
    block: &mut Block,
    groups: &List<FieldGroup>,
    fields: &mut NameTable,
    at: Pos,
) -> Result<(), Stop>
    ensures declared { OnOk result (groups_in at (groups_of groups.now) block.old fields.old ≡ Ok block.new) }
    ensures refused { (unmet : UnmetOf) → result ≡ Err (Stop.Unmet unmet) → groups_in at (groups_of groups.now) block.old fields.old ≡ Err unmet }
{
    for group in groups.as_slice() {
        declare_group(alloc, block, group, fields, at)?;
    }
    Ok(())
}

#[cycle(types)]
fn declare_group(
    alloc: Global,
    block: &mut Block,
    group: &FieldGroup,
    fields: &mut NameTable,
    at: Pos,
) -> Result<(), Stop>
    ensures declared { OnOk result (group_in at (group_of group.now) block.old fields.old ≡ Ok (block.new, fields.new)) }
    ensures refused { (unmet : UnmetOf) → result ≡ Err (Stop.Unmet unmet) → group_in at (group_of group.now) block.old fields.old ≡ Err unmet }
{
    declare_type(alloc, block, &group.ty, at)?;
    declare_fields(fields, &group.fields, at)
}

//! What replaces a use of a macro.

ghost use Rattle.std.specs.Prelude.{◌≡◌, ◌^◌, ◌+◌, ◌-◌, ◌∷◌, ◌++◌, length, map, min, IfOk, OnOk, Some, option_copied, option_map};
ghost use Rattle.std.specs.List.{position};
ghost use Rattle.nesc_macros.specs.Sets.{Extends};
ghost use Rattle.nesc_macros.specs.Code.{IsUnion};
ghost use Rattle.nesc_macros.specs.declared.hide_sets.Link.{Link as LinkOf};
ghost use Rattle.nesc_macros.specs.Invocation.{same_name};
ghost use Rattle.nesc_macros.specs.Expansion.{placed, hide, union, argument_of, substituted, object_replacement};
ghost use Rattle.nesc_macros.specs.Numbers.{IsIn, Scope, name_at, names_of, shown, all_shown};
ghost use Rattle.nesc_macros.specs.Invocation.{PreprocessingToken};
ghost use Rattle.std.specs.Prelude.{ℕ, List as ListOf};
ghost use Rattle.nm_base.specs.declared.pos.Pos.{Pos as PosOf};
ghost use Rattle.nm_base.specs.declared.token.Token.{Token as TokenOf};

use crate::definition::{Macro, NumberedMacro, NumberedToken};
use crate::hide_sets::{HideSet, HideSets};
use nm_base::{List, Name, NoMemory, Pos, Token};
use std::alloc::Global;

// A token of a replacement list, where the name stood.
fn placed(pos: Pos, hide_set: &HideSet, token: &Token) -> Result<NumberedToken, NoMemory>
    ensures { IfOk result (λ t. (scope : Scope) → shown scope t ≡ placed pos (names_of scope hide_set.now) token.now) }
{
    Ok(NumberedToken {
        token: Token {
            kind: token.kind,
            text: token.text.clone()?,
            pos,
            first: false,
        },
        hide_set: *hide_set,
    })
}

// The tokens of a replacement list, where the name stood.
fn all_placed(
    alloc: Global,
    pos: Pos,
    hide_set: &HideSet,
    replacement: &[Token],
) -> Result<Vec<NumberedToken>, NoMemory>
    ensures { IfOk result (λ list. (scope : Scope) → all_shown scope list.items ≡ map (placed pos (names_of scope hide_set.now)) replacement.now) }
{
    let mut list = Vec::new(alloc);
    for part in replacement {
        list.push(placed(pos, hide_set, part)?)?;
    }
    Ok(list)
}

/// What replaces the name `token` of an object-like macro.
pub fn object_replacement(
    alloc: Global,
    sets: &mut HideSets,
    found: NumberedMacro,
    token: &NumberedToken,
) -> Result<Vec<NumberedToken>, NoMemory>
    ensures grows { Extends sets.old.links.items sets.new.links.items }
    ensures list { IfOk result (λ list. (scope : Scope) → IsIn sets.new scope → name_at scope found.entry.number ≡ Some found.entry.definition.now.name
        → all_shown scope list.items ≡ object_replacement found.entry.definition.now (shown scope token.now)) }
{
    let hide_set = sets.with(&token.hide_set, found.number)?;
    all_placed(
        alloc,
        token.token.pos,
        &hide_set,
        found.definition.replacement.as_slice(),
    )
}

// The hide set of tokens of an argument, and its union with that of what replaces the use.
#[derive(Clone, Copy, Debug)]
pub(crate) struct Union {
    part: HideSet,
    all: HideSet,
}

// The union with this set: what is known, where it is the set of the token before.
fn union_with(
    sets: &mut HideSets,
    hide_set: &HideSet,
    known: Union,
    part: &HideSet,
) -> Result<Union, NoMemory>
    requires { (links : ListOf LinkOf) → Extends sets.old.links.items links → IsUnion links hide_set.now known }
    ensures grows { Extends sets.old.links.items sets.new.links.items }
    ensures part { IfOk result (λ u. u.part ≡ part.now) }
    ensures union { IfOk result (λ u. (links : ListOf LinkOf) → Extends sets.new.links.items links → IsUnion links hide_set.now u) }
{
    if known.part.is(part) {
        return Ok(known);
    }
    Ok(Union {
        part: *part,
        all: sets.union(hide_set, part)?,
    })
}

// A token of an argument with another hide set.
fn hidden(hide_set: &HideSet, part: &NumberedToken) -> Result<NumberedToken, NoMemory>
    ensures { IfOk result (λ t. (scope : Scope) → shown scope t ≡ record { token = part.now.token; hide_set = names_of scope hide_set.now }) }
{
    Ok(NumberedToken {
        token: part.token.clone()?,
        hide_set: *hide_set,
    })
}

// Appends the tokens of an argument, in which more macros are hidden.
fn push_hidden(
    sets: &mut HideSets,
    list: &mut Vec<NumberedToken>,
    hide_set: &HideSet,
    argument: &[NumberedToken],
) -> Result<(), NoMemory>
    ensures grows { Extends sets.old.links.items sets.new.links.items }
    ensures list { OnOk result ((scope : Scope) → IsIn sets.new scope → all_shown scope list.new.items ≡ all_shown scope list.old.items ++ hide (names_of scope hide_set.now) (all_shown scope argument.now)) }
{
    let mut known = Union {
        part: HideSet::empty(),
        all: *hide_set,
    };
    for part in argument {
        known = union_with(sets, hide_set, known, &part.hide_set)?;
        list.push(hidden(&known.all, part)?)?;
    }
    Ok(())
}

// The place of the first parameter of this name.
fn place_of(parameters: &[Name], name: &Name) -> Option<usize>
    ensures { result ≡ position (λ p. same_name p name.now) parameters.now }
{
    parameters.iter().position(|parameter| parameter == name)
}

// The argument for the parameter of this name.
fn argument_of<'a>(
    parameters: &[Name],
    arguments: &'a [List<NumberedToken>],
    name: &Name,
) -> Option<&'a List<NumberedToken>>
    ensures { (scope : Scope) → option_map (all_shown scope) (option_copied result) ≡ argument_of parameters.now (map (all_shown scope) arguments.now) name.now }
{
    let place = place_of(parameters, name)?;
    arguments.get(place)
}

// How many tokens stand in the place of one of a replacement list.
fn part_len(parameters: &[Name], arguments: &[List<NumberedToken>], part: &Token) -> usize
    ensures { (scope : Scope) (pos : PosOf) (hide_set : ListOf (ListOf ℕ)) (ts : ListOf TokenOf)
        → length (substituted pos hide_set parameters.now (map (all_shown scope) arguments.now) (part.now ∷ ts))
        ≡ result + length (substituted pos hide_set parameters.now (map (all_shown scope) arguments.now) ts) }
{
    match argument_of(parameters, arguments, &part.text) {
        Some(argument) => argument.as_slice().len(),
        None => 1,
    }
}

/// How many tokens replace a use, or the largest number.
pub fn replacement_len(
    definition: &Macro,
    parameters: &[Name],
    arguments: &[List<NumberedToken>],
) -> usize
    ensures { (scope : Scope) (pos : PosOf) (hide_set : ListOf (ListOf ℕ))
        → result ≡ min (length (substituted pos hide_set parameters.now (map (all_shown scope) arguments.now) definition.now.replacement)) (2 ^ 64 - 1) }
{
    let mut len: usize = 0;
    for part in definition.replacement.as_slice() {
        len = len.saturating_add(part_len(parameters, arguments, part));
    }
    len
}

// Appends what stands in the place of one token of a replacement list.
fn push_part(
    sets: &mut HideSets,
    list: &mut Vec<NumberedToken>,
    pos: Pos,
    hide_set: &HideSet,
    parameters: &[Name],
    arguments: &[List<NumberedToken>],
    part: &Token,
) -> Result<(), NoMemory>
    ensures grows { Extends sets.old.links.items sets.new.links.items }
    ensures list { OnOk result ((scope : Scope) (ts : ListOf TokenOf) → IsIn sets.new scope
        → all_shown scope list.new.items ++ substituted pos (names_of scope hide_set.now) parameters.now (map (all_shown scope) arguments.now) ts
        ≡ all_shown scope list.old.items ++ substituted pos (names_of scope hide_set.now) parameters.now (map (all_shown scope) arguments.now) (part.now ∷ ts)) }
{
    match argument_of(parameters, arguments, &part.text) {
        Some(argument) => push_hidden(sets, list, hide_set, argument.as_slice()),
        None => Ok(list.push(placed(pos, hide_set, part)?)?),
    }
}

/// A replacement list with the arguments in the places of the parameters.
pub fn substituted(
    alloc: Global,
    sets: &mut HideSets,
    pos: Pos,
    hide_set: &HideSet,
    parameters: &[Name],
    arguments: &[List<NumberedToken>],
    replacement: &[Token],
) -> Result<Vec<NumberedToken>, NoMemory>
    ensures grows { Extends sets.old.links.items sets.new.links.items }
    ensures list { IfOk result (λ list. (scope : Scope) → IsIn sets.new scope
        → all_shown scope list.items ≡ substituted pos (names_of scope hide_set.now) parameters.now (map (all_shown scope) arguments.now) replacement.now) }
{
    let mut list = Vec::new(alloc);
    for part in replacement {
        push_part(sets, &mut list, pos, hide_set, parameters, arguments, part)?;
    }
    Ok(list)
}

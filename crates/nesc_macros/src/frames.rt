//! The stack of the expansion: uses whose arguments are being expanded.

ghost use Rattle.std.specs.Prelude.{◌≡◌, ◌+◌, ◌<◌, ◌≤◌, ◌++◌, ◌∷◌, length, IfOk, IfErr, OnOk, Err, []};
ghost use Rattle.std.specs.Prelude.{List as ListOf};
ghost use Rattle.nm_base.specs.declared.limit.TheConstants.{MAX_TOKENS};
ghost use Rattle.nesc_macros.specs.Invocation.{PreprocessingToken};
ghost use Rattle.nesc_macros.specs.Numbers.{IsIn, Scope, all_shown, common, macros_at, scope_of, shown};
ghost use Rattle.nesc_macros.specs.Sets.{Extends, numbers_in};
ghost use Rattle.nesc_macros.specs.Tables.{macros_in};
ghost use Rattle.nesc_macros.specs.declared.hide_sets.Link.{Link as LinkOf};
ghost use Rattle.nesc_macros.specs.Expansion.{Answer, IsExpansionFault, too_many};
ghost use Rattle.nesc_macros.specs.Code.{UnlessNoMemory};
ghost use Rattle.nesc_macros.specs.Frames.{suspended, all_suspended, EndsIn, ResumesTo, weight};

use crate::definition::{Macro, NumberedToken};
use crate::hide_sets::{HideSet, HideSets};
use crate::invocation::{Use, use_at};
use crate::pending::Pending;
use crate::replacement::{object_replacement, replacement_len, substituted};
use crate::table::Table;
use nm_base::{Fault, Limit, List, MAX_TOKENS, Name, NoMemory, Pos, Refusal, Which};
use std::alloc::Global;
use std::collections::VecDeque;

/// A list that is being expanded: what it has given, and what is left of it.
#[derive(Drop)]
pub struct Level {
    pub out: Vec<NumberedToken>,
    pub pending: Pending,
}

/// A use whose arguments are being expanded, with the place and the hide set of what replaces it, and the list that it
/// stands in.
#[derive(Drop)]
pub struct Frame<'m> {
    pub pos: Pos,
    pub hide_set: HideSet,
    pub definition: &'m Macro,
    pub parameters: &'m [Name],
    pub expanded: Vec<List<NumberedToken>>,
    pub waiting: VecDeque<Pending>,
    pub outer: Level,
}

// Counts tokens that are put before the scan.
fn count_more(count: &mut u32, more: usize) -> Result<(), Fault>
    requires { count.old ≤ MAX_TOKENS }
    ensures counted { OnOk result (count.new ≡ count.old + more) }
    ensures within { count.new ≤ MAX_TOKENS }
    ensures refused { IfErr result (λ e. (e ≡ too_many) × (count.new ≡ count.old) × (MAX_TOKENS < count.old + more)) }
{
    if more > (MAX_TOKENS - *count) as usize {
        return Err(Fault::Limit(Limit {
            which: Which::Tokens,
            have: MAX_TOKENS + 1,
        }));
    }
    *count += more as u32;
    Ok(())
}

/// Goes on with a use of which no argument is being expanded: with its next argument, or with what replaces it.
pub fn resume<'m>(
    alloc: Global,
    sets: &mut HideSets,
    count: &mut u32,
    frames: &mut VecDeque<Frame<'m>>,
    mut frame: Frame<'m>,
) -> Result<Level, Fault>
    requires { count.old ≤ MAX_TOKENS }
    ensures within { count.new ≤ MAX_TOKENS }
    ensures grows { count.old ≤ count.new }
    ensures extends { Extends sets.old.links.items sets.new.links.items }
    ensures leads { IfOk result (λ level. (scope : Scope) (whole : Answer (ListOf PreprocessingToken)) → IsIn sets.new scope
        → EndsIn (macros_at scope) count.new (all_suspended scope frames.new.items) (all_shown scope level.out.items) (all_shown scope level.pending) whole
        → ResumesTo (macros_at scope) count.old (suspended scope frame.entry) (all_suspended scope frames.old.items) whole) }
    ensures refused { IfErr result (λ e. UnlessNoMemory e ((scope : Scope)
        → ResumesTo (macros_at scope) count.old (suspended scope frame.entry) (all_suspended scope frames.old.items) (record { value = Err e; count = count.new }))) }
    ensures kinds { IfErr result IsExpansionFault }
    ensures lighter { IfOk result (λ level. weight count.new frames.new.items level.pending
        < weight count.old (frame.entry ∷ frames.old.items) []) }
{
    if let Some(argument) = frame.waiting.pop_front() {
        frames.push_front(frame)?;
        return Ok(Level {
            out: Vec::new(alloc),
            pending: argument,
        });
    }
    count_more(
        count,
        replacement_len(frame.definition, frame.parameters, &frame.expanded),
    )?;
    let pos = frame.pos;
    let parameters = frame.parameters;
    let replacement = frame.definition.replacement.as_slice();
    let list = substituted(
        alloc,
        sets,
        pos,
        &frame.hide_set,
        parameters,
        &frame.expanded,
        replacement,
    )?;
    let mut level = frame.outer;
    level.pending.put_front(alloc, list)?;
    Ok(level)
}

/// Expands the token at the front of a list.
pub fn expand_token<'m>(
    alloc: Global,
    table: &'m Table,
    sets: &mut HideSets,
    count: &mut u32,
    frames: &mut VecDeque<Frame<'m>>,
    mut level: Level,
    token: NumberedToken,
) -> Result<Level, Fault>
    requires { count.old ≤ MAX_TOKENS }
    ensures within { count.new ≤ MAX_TOKENS }
    ensures grows { count.old ≤ count.new }
    ensures extends { Extends sets.old.links.items sets.new.links.items }
    ensures leads { IfOk result (λ next. (links : ListOf LinkOf) (whole : Answer (ListOf PreprocessingToken)) → IsIn sets.new (scope_of table.now links)
        → EndsIn (macros_in table.now) count.new (all_suspended (scope_of table.now links) frames.new.items) (all_shown (scope_of table.now links) next.out.items) (all_shown (scope_of table.now links) next.pending) whole
        → EndsIn (macros_in table.now) count.old (all_suspended (scope_of table.now links) frames.old.items) (all_shown (scope_of table.now links) level.out.items) (shown (scope_of table.now links) token ∷ all_shown (scope_of table.now links) level.pending) whole) }
    ensures refused { IfErr result (λ e. UnlessNoMemory e ((links : ListOf LinkOf) → IsIn sets.new (scope_of table.now links)
        → EndsIn (macros_in table.now) count.old (all_suspended (scope_of table.now links) frames.old.items) (all_shown (scope_of table.now links) level.out.items) (shown (scope_of table.now links) token ∷ all_shown (scope_of table.now links) level.pending) (record { value = Err e; count = count.new }))) }
    ensures kinds { IfErr result IsExpansionFault }
    ensures lighter { IfOk result (λ next. weight count.new frames.new.items next.pending
        < weight count.old frames.old.items (token ∷ level.pending)) }
{
    match use_at(alloc, table, sets, &token, &mut level.pending)? {
        Use::Passes => {
            level.out.push(token)?;
            Ok(level)
        }
        Use::ObjectLike(found) => {
            count_more(count, found.definition.replacement.as_slice().len())?;
            let list = object_replacement(alloc, sets, found, &token)?;
            level.pending.put_front(alloc, list)?;
            Ok(level)
        }
        Use::FunctionLike(found, parameters, arguments) => {
            let frame = Frame {
                pos: token.token.pos,
                hide_set: replacement_hide_set(sets, found.number, &token, &arguments.close)?,
                definition: found.definition,
                parameters,
                expanded: Vec::new(alloc),
                waiting: arguments.lists,
                outer: level,
            };
            resume(alloc, sets, count, frames, frame)
        }
        Use::Misused => Err(Fault::Refused(Refusal::MacroArguments(token.token.pos))),
    }
}

// The hide set of what replaces a use of a function-like macro, from its name and the parenthesis at its end.
fn replacement_hide_set(
    sets: &mut HideSets,
    number: u32,
    token: &NumberedToken,
    close: &NumberedToken,
) -> Result<HideSet, NoMemory>
    ensures grows { Extends sets.old.links.items sets.new.links.items }
    ensures set { IfOk result (λ s. (links : ListOf LinkOf) → Extends sets.new.links.items links → numbers_in links s ≡ number ∷ common (numbers_in links token.now.hide_set) (numbers_in links close.now.hide_set)) }
{
    let both = sets.intersection(&token.hide_set, &close.hide_set)?;
    sets.with(&both, number)
}

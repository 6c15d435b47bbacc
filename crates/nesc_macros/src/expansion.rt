//! The expansion of a list of tokens.

ghost use Rattle.std.specs.Prelude.{◌≡◌, ◌≤◌, IfOk, IfErr, Ok};
ghost use Rattle.std.specs.List.{list_any};
ghost use Rattle.nm_base.specs.declared.limit.TheConstants.{MAX_TOKENS};
ghost use Rattle.nesc_macros.specs.Numbers.{tokens_in};
ghost use Rattle.nesc_macros.specs.Tables.{macros_in};
ghost use Rattle.nesc_macros.specs.Expansion.{ExpandsTo, FailsTo, IsExpansionFault};
ghost use Rattle.nesc_macros.specs.Code.{is_macro_name};

use crate::definition::NumberedToken;
use crate::frames::{Level, expand_token, resume};
use crate::hide_sets::HideSets;
use crate::macros::Macros;
use crate::names::is_word;
use crate::pending::Pending;
use crate::table::Table;
use nm_base::{Fault, List, NoMemory, Token};
use std::alloc::Global;
use std::collections::VecDeque;

fn tokens_in(alloc: Global, expanded: Vec<NumberedToken>) -> Result<Vec<Token>, NoMemory>
    ensures { IfOk result (λ all. all.items ≡ tokens_in expanded.items) }
{
    Ok(expanded.into_iter().map(|part| part.token).collect(alloc)?)
}

// The expansion by a table of macros.
fn expand_by(
    alloc: Global,
    table: &Table,
    count: &mut u32,
    tokens: Vec<Token>,
) -> Result<Vec<Token>, Fault>
    requires within { count.old ≤ MAX_TOKENS }
    ensures within { count.new ≤ MAX_TOKENS }
    ensures grows { count.old ≤ count.new }
    ensures expanded { IfOk result (λ v. ExpandsTo (macros_in table.now) count.old tokens.items (record { value = Ok v.items; count = count.new })) }
    ensures refused { IfErr result (λ e. FailsTo (macros_in table.now) count.old tokens.items e count.new) }
    ensures kinds { IfErr result IsExpansionFault }
{
    let mut sets = HideSets::new(alloc);
    let mut frames = VecDeque::new(alloc);
    let mut level = Level {
        out: Vec::new(alloc),
        pending: Pending::unhidden(alloc, tokens)?,
    };
    loop {
        if let Some(token) = level.pending.pop_front() {
            level = expand_token(alloc, table, &mut sets, count, &mut frames, level, token)?;
        } else if let Some(mut frame) = frames.pop_front() {
            frame.expanded.push(List::new(level.out))?;
            level = resume(alloc, &mut sets, count, &mut frames, frame)?;
        } else {
            return Ok(tokens_in(alloc, level.out)?);
        }
    }
}

// Whether the token is a word that names a macro.
fn is_macro_name(table: &Table, token: &Token) -> bool
    ensures { result ≡ is_macro_name (macros_in table.now) token.now }
{
    is_word(token) && table.find(&token.text).is_some()
}

// Whether one of the tokens is a word that names a macro.
fn has_macro_name(table: &Table, tokens: &[Token]) -> bool
    ensures { result ≡ list_any (is_macro_name (macros_in table.now)) tokens.now }
{
    tokens.iter().any(|token| is_macro_name(table, token))
}

/// Expands a list of tokens. `count` is the number of tokens that were put before the scan; the replacements add theirs, also
/// where the call is refused. Refused are a use of a macro that does not fit it (E04, at its name) and one token more than
/// `MAX_TOKENS`.
pub fn expand_list(
    alloc: Global,
    macros: &Macros,
    count: &mut u32,
    tokens: Vec<Token>,
) -> Result<Vec<Token>, Fault>
    requires within { count.old ≤ MAX_TOKENS }
    ensures within { count.new ≤ MAX_TOKENS }
    ensures grows { count.old ≤ count.new }
    ensures expanded { IfOk result (λ v. ExpandsTo macros.now count.old tokens.items (record { value = Ok v.items; count = count.new })) }
    ensures refused { IfErr result (λ e. FailsTo macros.now count.old tokens.items e count.new) }
    ensures kinds { IfErr result IsExpansionFault }
{
    let table = macros.table();
    if !has_macro_name(table, tokens.as_slice()) {
        return Ok(tokens);
    }
    expand_by(alloc, table, count, tokens)
}

//! Obeying a directive.

ghost use Rattle.std.specs.Prelude.{◌≡◌, ◌<◌, ◌≤◌, length, Err, OnOk, IfOk, IfSome};
ghost use Rattle.nm_base.specs.declared.limit.TheConstants.{MAX_TOKENS};
ghost use Rattle.nesc_preproc.specs.Definitions.{defined_by, joined_in, included_by, only_word};
ghost use Rattle.nesc_preproc.specs.Sources.{World, IsLexing};
ghost use Rattle.nesc_preproc.specs.Obeyed.{defining, included, max_open, obeyed, or_malformed, plain, undefining};
ghost use Rattle.nesc_preproc.specs.Kept.{Allows, IsNoReadFault, IsTold};
ghost use Rattle.nesc_preproc.specs.Answers.{Counts, Gives, GivesIn, Includes, Obeys, situation_of};

use crate::conditional::is_live;
use crate::context::{Context, malformed};
use crate::definitions::{defined_by, included_by, only_word};
use crate::directive::Directive;
use crate::groups::obey_conditional;
use crate::lines::directives_of;
use crate::sources::open_file;
use nm_base::{Fault, Files, Pos, Refusal, Token};
use std::alloc::Global;

/// How many files may be open.
const MAX_OPEN: usize = 200;

// `#define`.
fn define(alloc: Global, context: &mut Context, pos: Pos, line: &[Token]) -> Result<(), Fault>
    ensures obeyed { Obeys result context.new (or_malformed pos (situation_of context.old) (defining (situation_of context.old) (defined_by (joined_in context.old.known.files.texts) line.now))) }
    ensures read { IsNoReadFault result }
{
    let Some(definition) = defined_by(alloc, &context.known.files, line)? else {
        return Err(malformed(pos));
    };
    context.macros.define(alloc, definition)?;
    Ok(())
}

// `#undef`.
fn undefine(alloc: Global, context: &mut Context, pos: Pos, line: &[Token]) -> Result<(), Fault>
    ensures obeyed { Obeys result context.new (or_malformed pos (situation_of context.old) (undefining (situation_of context.old) (only_word line.now))) }
    ensures read { IsNoReadFault result }
{
    let Some(name) = only_word(line) else {
        return Err(malformed(pos));
    };
    context.macros.undefine(alloc, name)?;
    Ok(())
}

// `#include`, where so many files are open: the tokens of the header to be put before the scan. Its ordinary tokens come at
// its first inclusion alone.
#[tactic(auto, using(crate::proofs::Opening::no_read_fault))]
fn include<F: Files>(
    alloc: Global,
    files: &mut F,
    context: &mut Context,
    depth: usize,
    pos: Pos,
    line: &[Token],
) -> Result<Vec<Token>, Fault>
    ensures outside { Counts result (F.seen files.old) (F.seen files.new) }
    ensures included { (world : World) → IsTold (F.seen files.old).texts world → IsLexing world.lexed → Allows result world.broken (length context.new.known.files.texts)
        → Includes result context.new (included world depth pos (situation_of context.old) (included_by line.now)) }
    ensures numbers { OnOk result (length context.old.known.files.texts ≤ length context.new.known.files.texts) }
    ensures unread { result ≡ Err Fault.ReadFault → length context.old.known.files.texts ≤ length context.new.known.files.texts }
    ensures within { OnOk result (context.new.known.tokens ≤ MAX_TOKENS) }
    ensures depth { OnOk result (depth < max_open) }
{
    let Some(name) = included_by(alloc, line)? else {
        return Err(malformed(pos));
    };
    if depth >= MAX_OPEN {
        return Err(Fault::Refused(Refusal::IncludeLoop(pos)));
    }
    let tokens = open_file(alloc, files, &mut context.known, &name)?;
    if context.known.is_declared(&name)? {
        return Ok(directives_of(alloc, tokens)?);
    }
    context.known.declare(&name)?;
    Ok(tokens)
}

// A directive that is no conditional, in a part that is not skipped.
#[tactic(auto, using(crate::proofs::Opening::no_read_fault))]
fn obey_plain<F: Files>(
    alloc: Global,
    files: &mut F,
    context: &mut Context,
    depth: usize,
    directive: Directive,
    pos: Pos,
    line: &[Token],
) -> Result<Option<Vec<Token>>, Fault>
    requires within { context.old.known.tokens ≤ MAX_TOKENS }
    ensures outside { Counts result (F.seen files.old) (F.seen files.new) }
    ensures obeyed { (world : World) → IsTold (F.seen files.old).texts world → IsLexing world.lexed → Allows result world.broken (length context.new.known.files.texts)
        → Gives result context.new (plain world depth pos line.now (situation_of context.old) directive) }
    ensures numbers { OnOk result (length context.old.known.files.texts ≤ length context.new.known.files.texts) }
    ensures unread { result ≡ Err Fault.ReadFault → length context.old.known.files.texts ≤ length context.new.known.files.texts }
    ensures within { OnOk result (context.new.known.tokens ≤ MAX_TOKENS) }
    ensures depth { IfOk result (λ header. IfSome header (λ _. depth < max_open)) }
{
    match directive {
        Directive::Define => define(alloc, context, pos, line)?,
        Directive::Undef => undefine(alloc, context, pos, line)?,
        Directive::Include => {
            return Ok(Some(include(alloc, files, context, depth, pos, line)?));
        }
        Directive::Error => return Err(Fault::Refused(Refusal::HashError(pos))),
        Directive::Warning => {}
        _ => return Err(malformed(pos)),
    }
    Ok(None)
}

/// Obeys the line behind the `#` at this place, where so many files are open. Answers the tokens of a header to be put before
/// the scan, where it includes one.
#[tactic(auto, using(crate::proofs::Opening::no_read_fault))]
pub(crate) fn obey<F: Files>(
    alloc: Global,
    files: &mut F,
    context: &mut Context,
    depth: usize,
    pos: Pos,
    line: &[Token],
) -> Result<Option<Vec<Token>>, Fault>
    requires within { context.old.known.tokens ≤ MAX_TOKENS }
    ensures outside { Counts result (F.seen files.old) (F.seen files.new) }
    ensures obeyed { (world : World) → IsTold (F.seen files.old).texts world → IsLexing world.lexed → Allows result world.broken (length context.new.known.files.texts)
        → GivesIn result context.new (λ steps. obeyed steps world depth pos line.now (situation_of context.old)) }
    ensures numbers { OnOk result (length context.old.known.files.texts ≤ length context.new.known.files.texts) }
    ensures unread { result ≡ Err Fault.ReadFault → length context.old.known.files.texts ≤ length context.new.known.files.texts }
    ensures within { OnOk result (context.new.known.tokens ≤ MAX_TOKENS) }
    ensures depth { IfOk result (λ header. IfSome header (λ _. depth < max_open)) }
{
    let Some((name, line)) = line.split_first() else {
        return Ok(None);
    };
    let directive = Directive::named(name);
    if directive.is_conditional() {
        obey_conditional(alloc, context, directive, pos, line)?;
        return Ok(None);
    }
    if !is_live(&context.conditionals) {
        return Ok(None);
    }
    obey_plain(alloc, files, context, depth, directive, pos, line)
}

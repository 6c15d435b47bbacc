//! Directives of conditionals.

ghost use Rattle.std.specs.Prelude.{◌≡◌, ◌≤◌, true};
ghost use Rattle.nm_base.specs.declared.limit.TheConstants.{MAX_TOKENS};
ghost use Rattle.nesc_preproc.specs.Conditionals.{else_at, end_at, is_live};
ghost use Rattle.nesc_preproc.specs.Obeyed.{by_name, elif_at, if_live, grouped, ifdef_live, or_malformed, regrouped};
ghost use Rattle.nesc_preproc.specs.Kept.{IsNoReadFault};
ghost use Rattle.nesc_preproc.specs.Answers.{KeepsFiles, Obeys, ObeysIn, situation_of};

use crate::conditional::{Conditional, close, is_live, to_last_group};
use crate::context::{Context, malformed};
use crate::definitions::only_word;
use crate::directive::Directive;
use nm_base::{Fault, Pos, Token};
use std::alloc::Global;

// `#if`.
fn begin_if(alloc: Global, context: &mut Context, pos: Pos, line: &[Token]) -> Result<(), Fault>
    requires within { context.old.known.tokens ≤ MAX_TOKENS }
    ensures obeyed { ObeysIn result context.new (λ steps. if_live steps pos line.now (situation_of context.old) (is_live context.old.conditionals.items)) }
    ensures kept { KeepsFiles result context.old context.new }
    ensures read { IsNoReadFault result }
{
    if !is_live(&context.conditionals) {
        context.open(Conditional::skipped(pos))?;
        return Ok(());
    }
    let taken = context.holds(alloc, pos, line)?;
    context.open(Conditional::begun(pos, taken))?;
    Ok(())
}

// `#ifdef`, where the name is wanted, and `#ifndef`.
fn begin_ifdef(context: &mut Context, pos: Pos, line: &[Token], wanted: bool) -> Result<(), Fault>
    requires within { context.old.known.tokens ≤ MAX_TOKENS }
    ensures obeyed { ObeysIn result context.new (λ steps. ifdef_live wanted pos line.now (situation_of context.old) (is_live context.old.conditionals.items)) }
    ensures kept { KeepsFiles result context.old context.new }
    ensures read { IsNoReadFault result }
{
    if !is_live(&context.conditionals) {
        context.open(Conditional::skipped(pos))?;
        return Ok(());
    }
    let Some(name) = only_word(line) else {
        return Err(malformed(pos));
    };
    let defined = context.macros.get(name).is_some();
    context.open(Conditional::begun(pos, defined == wanted))?;
    Ok(())
}

// `#elif`.
fn go_to_elif(alloc: Global, context: &mut Context, pos: Pos, line: &[Token]) -> Result<(), Fault>
    requires within { context.old.known.tokens ≤ MAX_TOKENS }
    ensures obeyed { ObeysIn result context.new (λ steps. elif_at steps pos line.now (situation_of context.old) context.old.conditionals.items) }
    ensures kept { KeepsFiles result context.old context.new }
    ensures read { IsNoReadFault result }
{
    let Some(innermost) = context.conditionals.front().copied() else {
        return Err(malformed(pos));
    };
    if innermost.last {
        return Err(malformed(pos));
    }
    if innermost.taken {
        context.regroup(innermost.at_group(false))?;
        return Ok(());
    }
    let taken = context.holds(alloc, pos, line)?;
    context.regroup(innermost.at_group(taken))?;
    Ok(())
}

// `#else`.
fn go_to_else(context: &mut Context, pos: Pos, line: &[Token]) -> Result<(), Fault>
    requires within { context.old.known.tokens ≤ MAX_TOKENS }
    ensures obeyed { Obeys result context.new (or_malformed pos (situation_of context.old) (regrouped (situation_of context.old) (else_at context.old.conditionals.items line.now))) }
    ensures kept { KeepsFiles result context.old context.new }
    ensures read { IsNoReadFault result }
{
    if to_last_group(&mut context.conditionals, line)? {
        Ok(())
    } else {
        Err(malformed(pos))
    }
}

// `#endif`.
fn end_if(context: &mut Context, pos: Pos, line: &[Token]) -> Result<(), Fault>
    requires within { context.old.known.tokens ≤ MAX_TOKENS }
    ensures obeyed { Obeys result context.new (or_malformed pos (situation_of context.old) (regrouped (situation_of context.old) (end_at context.old.conditionals.items line.now))) }
    ensures kept { KeepsFiles result context.old context.new }
    ensures read { IsNoReadFault result }
{
    if close(&mut context.conditionals, line)? {
        Ok(())
    } else {
        Err(malformed(pos))
    }
}

/// Obeys a directive that belongs to a conditional.
#[tactic(auto, using(crate::proofs::Obeying::obeys_at_once))]
pub(crate) fn obey_conditional(
    alloc: Global,
    context: &mut Context,
    directive: Directive,
    pos: Pos,
    line: &[Token],
) -> Result<(), Fault>
    requires within { context.old.known.tokens ≤ MAX_TOKENS }
    ensures obeyed { ObeysIn result context.new (λ steps. grouped steps pos line.now (situation_of context.old) directive) }
    ensures kept { KeepsFiles result context.old context.new }
    ensures read { IsNoReadFault result }
{
    match directive {
        Directive::If => begin_if(alloc, context, pos, line),
        Directive::Ifdef => begin_ifdef(context, pos, line, true),
        Directive::Ifndef => begin_ifdef(context, pos, line, false),
        Directive::Elif => go_to_elif(alloc, context, pos, line),
        Directive::Else => go_to_else(context, pos, line),
        Directive::Endif => end_if(context, pos, line),
        _ => Ok(()),
    }
}

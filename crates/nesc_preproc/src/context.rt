//! What directives change.

ghost use Rattle.std.specs.Prelude.{◌≡◌, ◌∷◌, ◌≤◌, drop, OnOk};
ghost use Rattle.nm_base.specs.declared.limit.TheConstants.{MAX_TOKENS};
ghost use Rattle.nesc_preproc.specs.Obeyed.{asked, malformed, opening, truth_of, with_conditionals, with_tokens};
ghost use Rattle.nesc_preproc.specs.Kept.{IsNoReadFault};
ghost use Rattle.nesc_preproc.specs.Answers.{Asks, situation_of};

use crate::conditional::Conditional;
use crate::known::KnownFiles;
use nesc_conditions::{resolve_defined, value_of};
use nesc_macros::{Macros, expand_list};
use nm_base::{Fault, NoMemory, Pos, Refusal, Token};
use std::alloc::Global;
use std::collections::VecDeque;

/// What is known of the files, the macros, and the open conditionals of the innermost file, innermost first.
#[derive(Debug, Drop)]
pub(crate) struct Context {
    pub known: KnownFiles,
    pub macros: Macros,
    pub conditionals: VecDeque<Conditional>,
}

/// E03, at the `#`.
pub(crate) fn malformed(pos: Pos) -> Fault
    ensures { result ≡ malformed pos }
{
    Fault::Refused(Refusal::BadDirective(pos))
}

fn truth_of(pos: Pos, value: Option<i64>) -> Result<bool, Fault>
    ensures { result ≡ truth_of pos value }
{
    match value {
        Some(value) => Ok(value != 0),
        None => Err(malformed(pos)),
    }
}

impl Context {
    /// Opens a conditional.
    pub fn open(&mut self, conditional: Conditional) -> Result<(), NoMemory>
        ensures { OnOk result (situation_of self.new ≡ opening (situation_of self.old) conditional) }
    {
        self.conditionals.push_front(conditional)?;
        Ok(())
    }

    /// Puts a conditional in the place of the innermost.
    pub fn regroup(&mut self, conditional: Conditional) -> Result<(), NoMemory>
        ensures { OnOk result (situation_of self.new ≡ with_conditionals (situation_of self.old) (conditional ∷ drop 1 self.old.conditionals.items)) }
    {
        self.conditionals.pop_front();
        self.conditionals.push_front(conditional)?;
        Ok(())
    }

    /// Whether the condition of a line holds. The replacements in it are counted.
    pub fn holds(&mut self, alloc: Global, pos: Pos, line: &[Token]) -> Result<bool, Fault>
        requires within { self.old.known.tokens ≤ MAX_TOKENS }
        ensures asked { Asks result self.new.known.tokens (λ steps. asked steps self.old.macros self.old.known.tokens pos line.now) }
        ensures kept { situation_of self.new ≡ with_tokens (situation_of self.old) self.new.known.tokens }
        ensures within { self.new.known.tokens ≤ MAX_TOKENS }
        ensures read { IsNoReadFault result }
    {
        let Some(resolved) = resolve_defined(alloc, &self.macros, line)? else {
            return Err(malformed(pos));
        };
        let expanded = expand_list(alloc, &self.macros, &mut self.known.tokens, resolved)?;
        truth_of(pos, value_of(alloc, &expanded)?)
    }
}

//! Lines of tokens, and the runs of ordinary tokens between directives.

ghost use Rattle.std.specs.Prelude.{◌≡◌, ◌∷◌, false, IfOk, OnOk};
ghost use Rattle.nesc_preproc.specs.Lines.{begins_directive, line_of, behind_line, run_of, behind_run, directives_of};

use nesc_macros::is_sign;
use nm_base::{NoMemory, Token};
use std::alloc::Global;
use std::collections::VecDeque;

/// Whether the token is a `#` that is the first of its line.
pub(crate) fn begins_directive(token: &Token) -> bool
    ensures { result ≡ begins_directive token.now }
{
    token.first && is_sign(b"#", token)
}

/// Takes the tokens up to the next line.
pub(crate) fn take_line(alloc: Global, rest: &mut VecDeque<Token>) -> Result<Vec<Token>, NoMemory>
    ensures line { IfOk result (λ v. v.items ≡ line_of rest.old.items) }
    ensures rest { OnOk result (rest.new.items ≡ behind_line rest.old.items) }
{
    let mut line = Vec::new(alloc);
    while let Some(token) = rest.pop_front() {
        if token.first {
            rest.push_front(token)?;
            return Ok(line);
        }
        line.push(token)?;
    }
    Ok(line)
}

/// Takes this token and those up to the next directive.
pub(crate) fn take_run(
    alloc: Global,
    token: Token,
    rest: &mut VecDeque<Token>,
) -> Result<Vec<Token>, NoMemory>
    ensures run { IfOk result (λ v. v.items ≡ token ∷ run_of rest.old.items) }
    ensures rest { OnOk result (rest.new.items ≡ behind_run rest.old.items) }
{
    let mut run = Vec::new(alloc);
    run.push(token)?;
    while let Some(token) = rest.pop_front() {
        if begins_directive(&token) {
            rest.push_front(token)?;
            return Ok(run);
        }
        run.push(token)?;
    }
    Ok(run)
}

/// The directives alone.
pub(crate) fn directives_of(alloc: Global, tokens: Vec<Token>) -> Result<Vec<Token>, NoMemory>
    ensures { IfOk result (λ v. v.items ≡ directives_of false tokens.items) }
{
    let mut directives = Vec::new(alloc);
    let mut inside = false;
    for token in tokens {
        inside = begins_directive(&token) || (inside && !token.first);
        if inside {
            directives.push(token)?;
        }
    }
    Ok(directives)
}

//! Open conditionals and their groups.

ghost use Rattle.std.specs.Prelude.{◌≡◌};
ghost use Rattle.nesc_preproc.specs.Conditionals.{is_live, begun, skipped, at_group, at_last_group, else_at, end_at, may_follow, Regroups, outermost};

use nm_base::{NoMemory, Pos, Token};
use std::collections::VecDeque;

/// An open conditional: the place of its `#`, whether a group of it was taken, whether this one is, and whether this is the
/// last.
#[derive(Clone, Copy, Debug)]
pub(crate) struct Conditional {
    pub pos: Pos,
    pub taken: bool,
    pub live: bool,
    pub last: bool,
}

impl Conditional {
    /// At its first group, which is taken or not.
    pub fn begun(pos: Pos, taken: bool) -> Conditional
        ensures { result ≡ begun pos taken }
    {
        Conditional {
            pos,
            taken,
            live: taken,
            last: false,
        }
    }

    /// In a part that is skipped: no group of it is taken.
    pub fn skipped(pos: Pos) -> Conditional
        ensures { result ≡ skipped pos }
    {
        Conditional {
            pos,
            taken: true,
            live: false,
            last: false,
        }
    }

    /// At the next group, which is taken or not.
    pub fn at_group(self, taken: bool) -> Conditional
        ensures { result ≡ at_group self taken }
    {
        Conditional {
            pos: self.pos,
            taken: self.taken || taken,
            live: taken,
            last: false,
        }
    }

    fn at_last_group(self) -> Conditional
        ensures { result ≡ at_last_group self }
    {
        Conditional {
            pos: self.pos,
            taken: true,
            live: !self.taken,
            last: true,
        }
    }
}

/// Whether tokens are taken: the innermost group is.
pub(crate) fn is_live(conditionals: &VecDeque<Conditional>) -> bool
    ensures { result ≡ is_live conditionals.now.items }
{
    match conditionals.front() {
        None => true,
        Some(conditional) => conditional.live,
    }
}

// Whether these tokens may stand behind `#else` or `#endif` of a conditional in these ones.
fn may_follow(outer: &VecDeque<Conditional>, line: &[Token]) -> bool
    ensures { result ≡ may_follow outer.now.items line.now }
{
    line.is_empty() || !is_live(outer)
}

/// Goes to the group behind `#else`, and answers whether there may be one.
pub(crate) fn to_last_group(
    conditionals: &mut VecDeque<Conditional>,
    line: &[Token],
) -> Result<bool, NoMemory>
    ensures { Regroups result (else_at conditionals.old.items line.now) conditionals.old.items conditionals.new.items }
{
    let Some(innermost) = conditionals.pop_front() else {
        return Ok(false);
    };
    if innermost.last || !may_follow(conditionals, line) {
        conditionals.push_front(innermost)?;
        return Ok(false);
    }
    conditionals.push_front(innermost.at_last_group())?;
    Ok(true)
}

/// Closes the innermost conditional, and answers whether there was one to close.
pub(crate) fn close(
    conditionals: &mut VecDeque<Conditional>,
    line: &[Token],
) -> Result<bool, NoMemory>
    ensures { Regroups result (end_at conditionals.old.items line.now) conditionals.old.items conditionals.new.items }
{
    let Some(closed) = conditionals.pop_front() else {
        return Ok(false);
    };
    if !may_follow(conditionals, line) {
        conditionals.push_front(closed)?;
        return Ok(false);
    }
    Ok(true)
}

/// The place of the outermost.
pub(crate) fn outermost(conditionals: &VecDeque<Conditional>) -> Option<Pos>
    ensures { result ≡ outermost conditionals.now.items }
{
    conditionals.back().map(|conditional| conditional.pos)
}

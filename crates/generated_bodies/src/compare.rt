//! What a body does in the source beside what its lowered code does.

ghost use Rattle.std.specs.Prelude.{◌≡◌, true};
ghost use Rattle.mid_code.specs.Form.{IsMidCode};

use core_act::act;
use lower_form::is_short;
use mid_code::{Action, MidCode, open_start, open_step};
use nesc_core::Program;
use nm_base::NoMemory;
use std::alloc::Global;
use stmt_emitter::lower;
use well_formed::{has_few_nodes, is_well_formed};

/// How many turns each loop makes at most.
const TURNS: u32 = 8;

/// How many instructions of the code are run at most.
const MOST_STEPS: u32 = 2_000_000;

/// What came of a comparison: the actions of the source, whether the program was one that can be compared, and whether its code does
/// the same.
#[derive(Drop)]
pub(crate) struct Outcome {
    pub(crate) actions: Vec<Action>,
    pub(crate) is_accepted: bool,
    pub(crate) is_same: bool,
}

fn asks(action: Action) -> bool {
    matches!(action, Action::Load(_, _) | Action::In(_) | Action::Post(_))
}

/// Compares a body without parameters, whose Loads, Ins and Posts the list answers.
pub(crate) fn compare(
    alloc: Global,
    p: &Program,
    body: u32,
    answers: &[u16],
) -> Result<Outcome, NoMemory> {
    if !is_well_formed(alloc, p) || !has_few_nodes(p) || !is_short(p) {
        return Ok(Outcome {
            actions: Vec::new(alloc),
            is_accepted: false,
            is_same: false,
        });
    }
    let code = lower(alloc, p)?;
    let more = act(alloc, p, body, answers, TURNS + 1)?.len();
    let actions = act(alloc, p, body, answers, TURNS)?;
    let is_whole = actions.len() == more;
    let is_same = follows(alloc, &code, body, answers, actions.as_slice(), is_whole)?;
    Ok(Outcome {
        actions,
        is_accepted: true,
        is_same,
    })
}

// Whether a function of the code does these actions, and, if they are the whole, no more.
fn follows(
    alloc: Global,
    code: &MidCode,
    f: u32,
    answers: &[u16],
    wanted: &[Action],
    is_whole: bool,
) -> Result<bool, NoMemory>
    requires { IsMidCode code.now }
{
    match code.fns.as_slice().get(f as usize) {
        Some(function) if function.params.as_slice().is_empty() => {}
        _ => return Ok(false),
    }
    let mut state = open_start(alloc, code, f)?;
    let mut answers = answers.iter();
    let mut wanted = wanted.iter();
    for _ in 0..MOST_STEPS {
        if state.calls.as_slice().is_empty() {
            return Ok(wanted.next().is_none());
        }
        let answer = answers.as_slice().first().copied();
        if let Some(action) = open_step(alloc, code, &mut state, answer.unwrap_or(0))? {
            match wanted.next() {
                Some(next) if *next == action => {}
                Some(_) => return Ok(false),
                None => return Ok(!is_whole),
            }
            if asks(action) {
                if answers.next().is_none() {
                    return Ok(wanted.next().is_none());
                }
            }
        }
    }
    Ok(false)
}

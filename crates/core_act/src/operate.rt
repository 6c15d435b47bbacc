//! What is done with values alone.

ghost use Rattle.core_act.specs.Remaining.{IsOperable, operated};
ghost use Rattle.core_act.specs.Told.{all_actions};
ghost use Rattle.core_meaning.specs.Work.{Locals};
ghost use Rattle.nm_base.specs.Behaviour.{Behaviour};
ghost use Rattle.std.specs.Prelude.{◌≡◌, List, ℤ, OnOk};

use crate::log::{Log, ask, or_fail, perform};
use crate::stack::{Stack, pop_or};
use crate::task::Operation;
use core_numbers::{binary, distance, is_zero, offset, truth, unary, word_of};
use nm_base::{Action, NoMemory, wrap};

/// Takes values from the stack, and puts there what the operation gives.
pub(crate) fn operate(
    operation: Operation,
    values: &mut Stack<i64>,
    log: &mut Log<'_>,
) -> Result<(), NoMemory>
    requires { IsOperable operation }
    ensures { OnOk result ((after : List ℤ → Locals → Behaviour) (locals : Locals) → all_actions log.old (operated operation after values.old locals) ≡ all_actions log.new (after values.new locals)) }
{
    match operation {
        Operation::Give(x) => values.push(x),
        Operation::Unary(op, t) => {
            let x = pop_or(values, 0);
            values.push(unary(op, t, x))
        }
        Operation::Binary(op, t) => {
            let y = pop_or(values, 0);
            let x = pop_or(values, 0);
            let z = or_fail(log, 3, binary(op, t, x, y))?;
            values.push(z)
        }
        Operation::Convert(t) => {
            let x = pop_or(values, 0);
            values.push(wrap(t, x))
        }
        Operation::Offset(size) => {
            let count = pop_or(values, 0);
            let start = pop_or(values, 0);
            values.push(offset(start, count, size))
        }
        Operation::Distance(size) => {
            let y = pop_or(values, 0);
            let x = pop_or(values, 0);
            values.push(distance(x, y, size))
        }
        Operation::Truth => {
            let x = pop_or(values, 0);
            values.push(truth(!is_zero(x)))
        }
        Operation::Out(port) => {
            let x = pop_or(values, 0);
            perform(log, Action::Out(port, word_of(x)))?;
            values.push(x)
        }
        Operation::Ask(action) => {
            let answer = ask(log, action)?;
            values.push(i64::from(answer))
        }
        Operation::Perform(action) => perform(log, action),
        Operation::Drop => {
            pop_or(values, 0);
            Ok(())
        }
    }
}

//! How statements are left.

ghost use Rattle.std.specs.Prelude.{◌≡◌, false, true};
ghost use Rattle.core_act.specs.Walks.{left_or};
ghost use Rattle.core_meaning.specs.Flow as spec;
ghost use Rattle.core_meaning.specs.Work.{Work, give};
ghost use Rattle.core_meaning.specs.declared.flow.Flow.{Flow};
ghost use Rattle.core_meaning.specs.declared.flow.Flow.TheVariants.{On};

use core_meaning::Flow;

/// A switch takes the breaks of its statements.
pub(crate) fn out_of_switch(flow: Flow) -> Flow
    ensures { result ≡ spec.out_of_switch flow }
{
    match flow {
        Flow::On | Flow::Broke => Flow::On,
        Flow::Continued => Flow::Continued,
        Flow::Gave(v) => Flow::Gave(v),
    }
}

/// What a body gives back: 0 where it ends without a value.
pub(crate) fn result(flow: Flow) -> i64
    ensures { result ≡ spec.result flow }
{
    match flow {
        Flow::On | Flow::Broke | Flow::Continued => 0,
        Flow::Gave(v) => v,
    }
}

/// Whether the statement behind comes next.
pub(crate) fn goes_on(flow: Flow) -> bool
    ensures stays { result ≡ true → flow ≡ On }
    ensures leaves { result ≡ false → (next : Work Flow) → spec.on flow next ≡ give flow }
{
    match flow {
        Flow::On => true,
        Flow::Broke | Flow::Continued | Flow::Gave(_) => false,
    }
}

/// How a loop is left behind its body, None where its next turn may come.
pub(crate) fn left_loop(flow: Flow) -> Option<Flow>
    ensures { (next : Work Flow) → spec.again flow next ≡ left_or result next }
{
    match flow {
        Flow::On | Flow::Continued => None,
        Flow::Broke => Some(Flow::On),
        Flow::Gave(v) => Some(Flow::Gave(v)),
    }
}

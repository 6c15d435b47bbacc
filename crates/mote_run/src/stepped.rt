//! What a step was, in numbers and events.

ghost use Rattle.std.specs.Prelude.{◌≡◌, ◌≤◌};
ghost use Rattle.std.specs.Option.{option_to_list};
ghost use Rattle.msp430_cpu.specs.Slots.{counts, is_stopped};
ghost use Rattle.mote_run.specs.RunText.{shown_behind as events_behind};

use mote_devices::Shown;
use msp430_cpu::Stepped;

/// What a step that meets no instruction stops with.
pub(crate) const ILLEGAL: u16 = 256;

/// How many instructions a step ran.
pub(crate) fn instructions(stepped: Stepped) -> u32
    ensures count { result ≡ counts stepped }
    ensures few { result ≤ 1 }
{
    match stepped {
        Stepped::Stopped(code) if code >= ILLEGAL => 0,
        Stepped::Ran | Stepped::Stopped(_) => 1,
        Stepped::Idle | Stepped::Entered(_) => 0,
    }
}

pub(crate) fn is_stop(stepped: Stepped) -> bool
    ensures { result ≡ is_stopped stepped }
{
    matches!(stepped, Stepped::Stopped(_))
}

/// What a step shows behind its accesses: an entry, or a word that is no instruction.
pub(crate) fn shown_behind(stepped: Stepped) -> Option<Shown>
    ensures { option_to_list result ≡ events_behind stepped }
{
    match stepped {
        Stepped::Entered(line) => Some(Shown::Enter(line)),
        Stepped::Stopped(ILLEGAL) => Some(Shown::Fault(ILLEGAL)),
        Stepped::Ran | Stepped::Idle | Stepped::Stopped(_) => None,
    }
}

//! A call of a processor on its bus.

ghost use Rattle.std.specs.Prelude.{◌≡◌, false};
ghost use Rattle.std.specs.Option.{option_to_list};
ghost use Rattle.mote_bus.specs.Accesses.{shown_of};
ghost use Rattle.mote_bus.specs.declared.access.Access.TheVariants.{Read};

use mote_devices::Shown;
use msp430_cpu::{even, is_port};
use nm_base::FAULT;

/// A read or a write: the address as it was given, whether it was one of a word, and the value.
#[derive(Clone, Copy, Debug, PartialEq, Eq)]
pub enum Access {
    Read(u16, bool, u16),
    Write(u16, bool, u16),
}

/// A blank for the unused places of a fixed buffer.
impl Default for Access {
    ghost is_default = { λ access. access ≡ Read 0 false 0 };

    fn default() -> Access {
        Access::Read(0, false, 0)
    }
}

impl Access {
    /// What a trace shows of it: a read or a write of a word at a port, and a write to FAULT as the code.
    pub fn shown(self) -> Option<Shown>
        ensures { option_to_list result ≡ shown_of self }
    {
        match self {
            Access::Read(addr, true, value) if is_port(addr) => Some(Shown::In(even(addr), value)),
            Access::Write(addr, true, value) if is_port(addr) => {
                if even(addr) == FAULT {
                    Some(Shown::Fault(value % 256))
                } else {
                    Some(Shown::Out(even(addr), value))
                }
            }
            _ => None,
        }
    }
}

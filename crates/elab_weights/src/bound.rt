//! The bound up to which is counted.

ghost use Rattle.std.specs.Prelude.{◌≡◌};
ghost use Rattle.elab_weights.specs.Bounded as spec;

/// What is counted up to; each limit of a program and of a frame is below it.
pub const BOUND: u32 = 1_000_000;

/// The number, or the bound where the number is past it.
pub(crate) fn bounded(n: u32) -> u32
    ensures { result ≡ spec.bounded n }
{
    n.min(BOUND)
}

//! The least paths to bodies that touch an object and to those in which a row lies.

ghost use Rattle.std.specs.Prelude.{◌≡◌, ◌<◌, IfOk, length, map, option_map, slice_get};
ghost use Rattle.nesc_core.specs.View.{object_of, program_of};
ghost use Rattle.race_checker.specs.Computed as computed;
ghost use Rattle.race_report.specs.Firsts.{first_at, shared_from};
ghost use Rattle.race_report.specs.Known.{IsKnown};
ghost use Rattle.race_report.specs.Sites.{shared_path};

use crate::sources::Sources;
use least_paths::path_to;
use nesc_core::Program;
use nm_base::NoMemory;
use std::alloc::Global;

fn is_norace(p: &Program, x: u32) -> bool
    ensures { result ≡ computed.is_marked (slice_get (map object_of p.now.objects) x) }
{
    match p.objects.as_slice().get(x as usize) {
        Some(o) => o.norace,
        None => true,
    }
}

fn first_of(firsts: &[Option<u32>], x: u32) -> Option<u32>
    ensures { result ≡ first_at firsts.now x }
{
    match firsts.get(x as usize) {
        Some(first) => *first,
        None => None,
    }
}

/// Of the bodies that handlers reach the first in the order of least chains that touches object `x`; None where it has `norace`.
pub(crate) fn first_body(s: &Sources, x: u32) -> Option<u32>
    requires { IsKnown s.now }
    ensures { result ≡ shared_from (program_of s.now.p.now) s.now.handlers.order.items x }
{
    if is_norace(s.p, x) {
        return None;
    }
    first_of(&s.firsts, x)
}

/// The least chain of calls from a handler to a body that touches object `x`; None where it has `norace`.
pub(crate) fn async_path(alloc: Global, s: &Sources, x: u32) -> Result<Option<Vec<u32>>, NoMemory>
    requires { IsKnown s.now }
    ensures { IfOk result (λ found. option_map (λ v. v.items) found ≡ shared_path (program_of s.now.p.now) x) }
{
    match first_body(s, x) {
        Some(f) => path_to(alloc, &s.handlers, f),
        None => Ok(None),
    }
}

/// The least chain of calls outside every atomic statement from the boot body or a task to body `f`.
pub(crate) fn bare_path(alloc: Global, s: &Sources, f: u32) -> Result<Option<Vec<u32>>, NoMemory>
    requires known { IsKnown s.now }
    requires inside { f < length s.now.p.now.bodies }
    ensures { IfOk result (λ found. option_map (λ v. v.items) found ≡ computed.bare_path (program_of s.now.p.now) f) }
{
    path_to(alloc, &s.base, f)
}

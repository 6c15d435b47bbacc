//! Frames: the bytes of a body's locals, with the levels and the atomic statements of its code.

ghost use Rattle.std.specs.Prelude.{◌≡◌, ◌≤◌, ◌+◌, ◌*◌, IfOk, IfSome, List, ℕ, map, nat_le, sum_by};
ghost use Rattle.elab_meaning.specs.Answers.{Follows};
ghost use Rattle.elab_meaning.specs.View.{struct_of};
ghost use Rattle.elab_weights.specs.Bounded.{bounded};
ghost use Rattle.elab_weights.specs.Tables.{AreFirst, bytes_of};
ghost use Rattle.elab_weights.specs.declared.bound.TheConstants.{BOUND as limit};
ghost use Rattle.nesc_core.specs.Plain as core;
ghost use Rattle.nesc_core.specs.View.{body_of, type_of};
ghost use Rattle.program_meaning.specs.Walk as spec;

use crate::bound::bounded;
use crate::layouts::{layouts_for, size_among};
use crate::level_count::{levels, nested_atomics};
use elab_meaning::Struct;
use nesc_core::{Body, CoreType, Layout};
use nm_base::{Fault, NoMemory, Pos, Refusal};
use std::alloc::Global;

/// The greatest number of bytes of a frame.
const MAX_FRAME: u64 = 10_000;

// The bytes of a level, of an atomic statement, and of each frame.
const LEVEL: u64 = 4;

const ATOMIC: u64 = 2;

const FRAME: u64 = 40;

// The bytes of a local, each size made even.
fn bytes(layouts: &[Layout], t: &CoreType) -> Option<u32>
    ensures bytes { (structs : List (List core.Field)) → AreFirst structs layouts.now → IfSome result (λ n. n ≡ bytes_of structs (type_of t.now)) }
    ensures few { IfSome result (λ n. n ≤ limit + 1) }
{
    let size = size_among(layouts, t)?;
    Some(size + size % 2)
}

#[tactic(auto, using(crate::proofs::First::sums))]
fn local_bytes(layouts: &[Layout], locals: &[CoreType]) -> Result<u32, NoMemory>
    ensures { (structs : List (List core.Field)) → AreFirst structs layouts.now → IfOk result (λ n. n ≡ bounded (sum_by (bytes_of structs) (map type_of locals.now))) }
{
    let mut sum = 0;
    for t in locals {
        let Some(more) = bytes(layouts, t) else {
            return Err(NoMemory);
        };
        sum = bounded(sum + more);
    }
    Ok(sum)
}

#[tactic(auto, using(crate::proofs::Bounds::fits))]
fn frame_fits(bytes: u32, levels: u32, atomics: u32) -> bool
    ensures { (a b c : ℕ) → bytes ≡ bounded a → levels ≡ bounded b → atomics ≡ bounded c → result ≡ nat_le (a + 4 * b + 2 * c + 40) 10000 }
{
    u64::from(bytes) + LEVEL * u64::from(levels) + ATOMIC * u64::from(atomics) + FRAME <= MAX_FRAME
}

/// The frame of a body, which is named at a place, is not too large: BadType.
pub fn weighed(alloc: Global, structs: &[Struct], at: Pos, body: &Body) -> Result<(), Fault>
    ensures { Follows (λ _. tt) result (spec.weighed at (map struct_of structs.now) (body_of body.now)) }
{
    let layouts = layouts_for(alloc, structs, body.locals.as_slice())?;
    let bytes = local_bytes(&layouts, body.locals.as_slice())?;
    if frame_fits(bytes, levels(&body.code), nested_atomics(&body.code)) {
        Ok(())
    } else {
        Err(Fault::Refused(Refusal::BadType(at)))
    }
}

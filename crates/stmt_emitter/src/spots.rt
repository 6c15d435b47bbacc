//! Where the locals of a body are held.

ghost use Rattle.std.specs.Prelude.{◌≡◌, ◌+◌, ◌<◌, ◌≤◌, ◌^◌, ◌++◌, IfOk, OnOk, map};
ghost use Rattle.core_meaning.specs.Work as work;
ghost use Rattle.lower_expr.specs.Pieces.{values_at};
ghost use Rattle.mid_code.specs.Help as help;
ghost use Rattle.lower_stmt.specs.Bodies.{all_bytes, all_values, params_from, spots_from};
ghost use Rattle.lower_stmt.specs.Bodies as spec;
ghost use Rattle.nesc_core.specs.Size.{AreSized, IsSized, layout_of};
ghost use Rattle.nesc_core.specs.View.{program_of, structs_of, type_of};
ghost use Rattle.nesc_core.specs.Weights as weights;
ghost use Rattle.stmt_emitter.specs.Starts.{AreAllSized};

use expr_emitter::numbers::is_wide;
use expr_emitter::types::number_of;
use lower_expr::{Regs, Spot};
use nesc_core::{CoreType, Program, Structs};
use nm_base::NoMemory;
use std::alloc::Global;

// How many values a local takes.
fn values_of(t: &CoreType) -> u32
    ensures { result ≡ spec.values_of (type_of t.now) }
{
    match t {
        CoreType::Int(int) => { if is_wide(*int) { 2 } else { 1 } }
        CoreType::Pointer(_) => 1,
        CoreType::Void | CoreType::Array(_, _) | CoreType::Struct(_) => 0,
    }
}

fn even_size(s: &Structs, t: &CoreType) -> u16
    requires structs { AreSized (structs_of s.now) }
    requires sized { IsSized (structs_of s.now) (type_of t.now) }
    requires room { weights.even (layout_of (structs_of s.now) (type_of t.now)).size ≤ 65535 }
    ensures { result ≡ weights.even (layout_of (structs_of s.now) (type_of t.now)).size }
{
    let size = nesc_core::size(s, t);
    (size + size % 2) as u16
}

// How many bytes of the frame it takes.
fn bytes_in_frame(p: &Program, t: &CoreType) -> u16
    requires structs { AreSized (program_of p.now).structs }
    requires sized { IsSized (program_of p.now).structs (type_of t.now) }
    requires room { spec.bytes_in_frame (program_of p.now) (type_of t.now) ≤ 65535 }
    ensures { result ≡ spec.bytes_in_frame (program_of p.now) (type_of t.now) }
{
    match t {
        CoreType::Int(_) | CoreType::Pointer(_) => 0,
        CoreType::Void | CoreType::Array(_, _) | CoreType::Struct(_) => even_size(&p.structs, t),
    }
}

fn regs_from(t: &CoreType, v: u32) -> Regs
    requires { v + 1 < 2 ^ 32 }
    ensures { result ≡ spec.regs_from (type_of t.now) v }
{
    Regs {
        low: Some(v),
        high: if is_wide(number_of(Some(t))) {
            Some(v + 1)
        } else {
            None
        },
    }
}

// Where the next value is `v`, and the next place of the frame `o`.
fn spot_at(t: &CoreType, v: u32, o: u16) -> Spot
    requires { v + 1 < 2 ^ 32 }
    ensures { result ≡ spec.spot_at (type_of t.now) v o }
{
    match t {
        CoreType::Int(_) | CoreType::Pointer(_) => Spot::Values(regs_from(t, v)),
        CoreType::Void | CoreType::Array(_, _) | CoreType::Struct(_) => Spot::Frame(o),
    }
}

/// The spots of a body's locals, and how many values and bytes of the frame they take.
#[derive(Drop)]
pub(crate) struct Spots {
    pub(crate) spots: Vec<Spot>,
    pub(crate) values: u32,
    pub(crate) bytes: u16,
}

/// Where a body's locals are held.
pub(crate) fn spots_of(alloc: Global, p: &Program, locals: &[CoreType]) -> Result<Spots, NoMemory>
    requires structs { AreSized (program_of p.now).structs }
    requires types { AreAllSized (program_of p.now).structs (map type_of locals.now) }
    requires values { all_values (map type_of locals.now) + 1 < 2 ^ 32 }
    requires bytes { all_bytes (program_of p.now) (map type_of locals.now) ≤ 65535 }
    ensures spots { IfOk result (λ s. s.spots.items ≡ spots_from (program_of p.now) (map type_of locals.now) 0 0) }
    ensures values { IfOk result (λ s. s.values ≡ all_values (map type_of locals.now)) }
    ensures bytes { IfOk result (λ s. s.bytes ≡ all_bytes (program_of p.now) (map type_of locals.now)) }
{
    let mut spots = Vec::new(alloc);
    let mut values = 0;
    let mut bytes = 0;
    let mut rest = locals;
    while let Some((t, others)) = rest.split_first() {
        spots.push(spot_at(t, values, bytes))?;
        values += values_of(t);
        bytes += bytes_in_frame(p, t);
        rest = others;
    }
    Ok(Spots {
        spots,
        values,
        bytes,
    })
}

fn push_values(params: &mut Vec<u32>, t: &CoreType, v: u32) -> Result<(), NoMemory>
    requires { v + 1 < 2 ^ 32 }
    ensures { OnOk result (params.new.items ≡ params.old.items ++ values_at (help.is_wide (work.number_of (type_of t.now))) v) }
{
    params.push(v)?;
    if is_wide(number_of(Some(t))) {
        params.push(v + 1)?;
        Ok(())
    } else {
        Ok(())
    }
}

/// The values of parameters of these types, which are the first ones.
pub(crate) fn params_of(alloc: Global, types: &[CoreType]) -> Result<Vec<u32>, NoMemory>
    requires { all_values (map type_of types.now) + 1 < 2 ^ 32 }
    ensures { IfOk result (λ v. v.items ≡ params_from (map type_of types.now) 0) }
{
    let mut params = Vec::new(alloc);
    let mut v = 0;
    let mut rest = types;
    while let [t, others @ ..] = rest {
        push_values(&mut params, t, v)?;
        v += values_of(t);
        rest = others;
    }
    Ok(params)
}

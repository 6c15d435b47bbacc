//! Where the values of functions lie on the stack, as tables.

ghost use Rattle.std.specs.Prelude.{◌≡◌, ℕ, List as ListOf, ◌∷◌, [], ◌+◌, ◌-◌, ◌*◌, ◌<◌, ◌≤◌, IfOk, IfSome, None as none, length, replicate, slice_index, slice_index_or, false};
ghost use Rattle.nm_base.specs.declared.memory_map.TheConstants.{RAM_BYTES};
ghost use Rattle.mid_code.specs.Form.{AreBelow};
ghost use Rattle.mid_code.specs.declared.code.MidFn.{MidFn as FnOf};
ghost use Rattle.msp_select.specs.Frames as spec;
ghost use Rattle.msp_select.specs.Frames.{count_pushed, frame_place, own_bytes};
ghost use Rattle.select_emitter.specs.Code.{CanBeSelected, IsSmall};
ghost use Rattle.select_emitter.specs.Pushes.{AreBehind, IsPushed, home_at, next_home};
ghost use Rattle.select_emitter.specs.Scoped.{AreFrames, IsFrame};

use crate::functions::function_at;
use mid_code::{MidCode, MidFn};
use nm_base::{List, NoMemory};
use std::alloc::Global;

/// Where the values of a function lie, from SP up: its own bytes lie below its return address. `pushed` tells for each parameter
/// whether its callers push it, and `words` how many they push.
#[derive(Debug, Drop)]
pub(crate) struct Frame {
    pub(crate) own: u16,
    pub(crate) words: u16,
    pub(crate) pushed: List<bool>,
    pub(crate) homes: List<u16>,
}

// What is pushed for a function: how many words, whether each parameter is, and for each value how many lie behind it.
#[derive(Debug, Drop)]
struct Pushes {
    words: u16,
    flags: Vec<bool>,
    behind: Vec<Option<u16>>,
}

/// The frame of each function.
pub(crate) fn frames(alloc: Global, c: &MidCode) -> Result<Vec<Frame>, NoMemory>
    requires { CanBeSelected c.now }
    ensures { IfOk result (λ frames. AreFrames c.now frames.items) }
{
    let mut frames = Vec::with_capacity(alloc, c.fns.as_slice().len())?;
    for f in 0..c.fns.as_slice().len() {
        frames.push(make_frame(alloc, function_at(c, f))?)?;
    }
    Ok(frames)
}

fn make_frame(alloc: Global, function: &MidFn) -> Result<Frame, NoMemory>
    requires params { AreBelow function.now.values function.now.params }
    requires small { IsSmall function.now }
    ensures { IfOk result (λ f. IsFrame function.now f) }
{
    let pushes = make_pushes(alloc, function.params.as_slice(), function.values)?;
    let bytes = rounded(function.frame);
    let own = bytes + 2 * others(pushes.behind.as_slice());
    let homes = homes(alloc, pushes.behind.as_slice(), bytes, own)?;
    Ok(Frame {
        own,
        words: pushes.words,
        pushed: List::new(pushes.flags),
        homes: List::new(homes),
    })
}

// The next even number.
fn rounded(n: u16) -> u16
    requires { n ≤ RAM_BYTES }
    ensures { result ≡ spec.rounded n }
{
    2 * ((n + 1) / 2)
}

fn no_flags(alloc: Global, params: usize) -> Result<Vec<bool>, NoMemory>
    ensures { IfOk result (λ v. v.items ≡ replicate params false) }
{
    Ok(vec![in alloc; false; params]?)
}

fn no_places(alloc: Global, values: u32) -> Result<Vec<Option<u16>>, NoMemory>
    ensures { IfOk result (λ v. v.items ≡ replicate values none) }
{
    Ok(vec![in alloc; None; values as usize]?)
}

// From the last parameter to the first.
#[tactic(auto, using(crate::proofs::Framing::count_drop))]
fn make_pushes(alloc: Global, params: &[u32], values: u32) -> Result<Pushes, NoMemory>
    requires params { AreBelow values params.now }
    requires few { count_pushed params.now ≤ 5120 }
    ensures { IfOk result (λ p. IsPushed values params.now 0 p.words p.flags.items p.behind.items) }
{
    let mut pushes = Pushes {
        words: 0,
        flags: no_flags(alloc, params.len())?,
        behind: no_places(alloc, values)?,
    };
    let mut at = params.len();
    while at > 0 {
        at -= 1;
        push(&mut pushes, at, params[at]);
    }
    Ok(pushes)
}

// One more parameter in front of the others.
fn push(pushes: &mut Pushes, at: usize, v: u32)
    requires at { at < length pushes.old.flags.items }
    requires value { v < length pushes.old.behind.items }
    requires room { pushes.old.words ≤ 5120 }
    ensures pushed { (values : ℕ) (ps : ListOf ℕ) → v < values → IsPushed values ps (at + 1) pushes.old.words pushes.old.flags.items pushes.old.behind.items → IsPushed values (v ∷ ps) at pushes.new.words pushes.new.flags.items pushes.new.behind.items }
    ensures long { length pushes.new.flags.items ≡ length pushes.old.flags.items }
{
    let is_new = pushes.behind[v as usize].is_none();
    pushes.flags[at] = is_new;
    if is_new {
        pushes.behind[v as usize] = Some(pushes.words);
        pushes.words += 1;
    }
}

// How many values are no parameters.
fn others(behind: &[Option<u16>]) -> u16
    requires { length behind.now ≤ 5120 }
    ensures others { (ps : ListOf ℕ) → AreBehind ps behind.now → result ≡ spec.others_below ps (length behind.now) }
    ensures few { result ≤ length behind.now }
{
    let mut others = 0;
    for place in behind {
        others += u16::from(place.is_none());
    }
    others
}

// The home of a value, where that of the next value that is no parameter is known.
fn home(place: Option<u16>, own: u16, next: u16) -> u16
    requires own { own ≤ RAM_BYTES }
    requires place { IfSome place (λ words. words ≤ 5120) }
    ensures { result ≡ home_at place own next }
{
    match place {
        Some(words) => own + 2 + 2 * words,
        None => next,
    }
}

// The home behind it.
fn home_behind(place: Option<u16>, next: u16) -> u16
    requires { next ≤ 30000 }
    ensures home { result ≡ next_home place next }
    ensures near { result ≤ next + 2 }
{
    match place {
        Some(_) => next,
        None => next + 2,
    }
}

// The home of each value.
#[tactic(auto, using(crate::proofs::Framing::homes_next))]
fn homes(alloc: Global, behind: &[Option<u16>], bytes: u16, own: u16) -> Result<Vec<u16>, NoMemory>
    requires few { length behind.now ≤ 5120 }
    requires near { (v : ℕ) → v < length behind.now → IfSome (slice_index_or behind.now v none) (λ words. words ≤ 5120) }
    requires bytes { bytes ≤ RAM_BYTES }
    requires own { own ≤ RAM_BYTES }
    ensures many { IfOk result (λ homes. length homes.items ≡ length behind.now) }
    ensures homes { (fn : FnOf) → AreBehind fn.params behind.now → bytes ≡ spec.rounded fn.frame → own ≡ own_bytes fn → IfOk result (λ homes. (v : ℕ) → v < length behind.now → slice_index homes.items v ≡ frame_place fn v) }
{
    let mut homes = Vec::with_capacity(alloc, behind.len())?;
    let mut next = bytes;
    for place in behind {
        homes.push(home(*place, own, next))?;
        next = home_behind(*place, next);
    }
    Ok(homes)
}

//! The greatest number of bytes on the stack along the calls of each function, by a search without recursion.

ghost use Rattle.std.specs.Prelude.{◌≡◌, ℕ, ◌<◌, ◌≤◌, IfOk, OnOk, Ok, true, false, length, slice_index, []};
ghost use Rattle.msp_layout.specs.Depth.{HasNoCycle, IsRank, Names, calls_of};
ghost use Rattle.msp_layout.specs.Search.{HasDepth, IsSearch, IsDone, IsNew, IsBegun, StayBegun, steps_left, visit_at, depth_of, call_at};

use msp_isa::CodeFn;
use nm_base::NoMemory;
use std::alloc::Global;

/// The bytes of a return address.
const RETURN_BYTES: u32 = 2;

/// How far the search is with a function: not begun, before one of its calls, or behind all, with its depth.
#[derive(Clone, Copy)]
pub(crate) enum Visit {
    New,
    Open(usize),
    Done(u32),
}

impl Visit {
    fn is_new(self) -> bool
        ensures begun { result ≡ false → IsBegun self }
        ensures new { result ≡ true → IsNew self }
    {
        matches!(self, Visit::New)
    }

    /// The depth of a function that is done.
    pub(crate) fn depth(self) -> u32
        ensures { result ≡ depth_of self }
    {
        match self {
            Visit::Done(depth) => depth,
            _ => 0,
        }
    }
}

/// For each function the greatest sum of frames, and of two bytes for each call, along a path of calls; the last number
/// of 32 bits stands for all above it.
pub(crate) fn depths(alloc: Global, code: &[CodeFn]) -> Result<Vec<Visit>, NoMemory>
    requires callees { (f g : ℕ) → f < length code.now → Names (calls_of code.now f) g → g < length code.now }
    requires no_cycle { HasNoCycle code.now }
    ensures len { IfOk result (λ visits. length visits.items ≡ length code.now) }
    ensures each { IfOk result (λ visits. (f : ℕ) → f < length code.now → HasDepth code.now (λ g. g ≡ f) (depth_of (visit_at visits.items f))) }
{
    let mut visits = vec![in alloc; Visit::New; code.len()]?;
    let mut trail = Vec::new(alloc);
    for f in 0..code.len() {
        begin(code, f, &mut visits, &mut trail)?;
        while step(code, &mut visits, &mut trail)? {}
    }
    Ok(visits)
}

// Begins a function, where it is new.
fn begin(
    code: &[CodeFn],
    f: usize,
    visits: &mut Vec<Visit>,
    trail: &mut Vec<usize>,
) -> Result<(), NoMemory>
    requires within { f < length code.now }
    requires search { IsSearch code.now visits.old.items trail.old.items }
    requires called { (rank : ℕ → ℕ) → IsRank code.now rank → (i : ℕ) → i < length trail.old.items → rank f < rank (slice_index trail.old.items i) }
    ensures search { OnOk result (IsSearch code.now visits.new.items trail.new.items) }
    ensures begun { OnOk result (IsBegun (visit_at visits.new.items f)) }
    ensures stay { OnOk result (StayBegun visits.old.items visits.new.items) }
    ensures fewer { OnOk result (IsNew (visit_at visits.old.items f) → steps_left code.now visits.new.items < steps_left code.now visits.old.items) }
{
    if visits[f].is_new() {
        trail.push(f)?;
        visits[f] = Visit::Open(0);
    }
    Ok(())
}

// Looks at one call of the function begun last, or leaves it behind its calls. Tells whether there was one.
fn step(code: &[CodeFn], visits: &mut Vec<Visit>, trail: &mut Vec<usize>) -> Result<bool, NoMemory>
    requires callees { (f g : ℕ) → f < length code.now → Names (calls_of code.now f) g → g < length code.now }
    requires no_cycle { HasNoCycle code.now }
    requires search { IsSearch code.now visits.old.items trail.old.items }
    ensures search { OnOk result (IsSearch code.now visits.new.items trail.new.items) }
    ensures stay { OnOk result (StayBegun visits.old.items visits.new.items) }
    ensures fewer { result ≡ Ok true → steps_left code.now visits.new.items < steps_left code.now visits.old.items }
    ensures end { result ≡ Ok false → trail.new.items ≡ [] }
{
    let Some(top) = trail.as_slice().last().copied() else {
        return Ok(false);
    };
    let Visit::Open(next) = visits[top] else {
        return Ok(false);
    };
    let calls = code[top].calls.as_slice();
    if next == calls.len() {
        visits[top] = Visit::Done(depth_over(code, top, visits));
        trail.pop();
    } else {
        let callee = calls[next] as usize;
        if visits[callee].is_new() {
            begin(code, callee, visits, trail)?;
        } else {
            visits[top] = Visit::Open(next + 1);
        }
    }
    Ok(true)
}

// The depth of a function whose calls are done.
fn depth_over(code: &[CodeFn], f: usize, visits: &[Visit]) -> u32
    requires within { f < length code.now }
    requires callees { (i : ℕ) → i < length (calls_of code.now f) → call_at code.now f i < length visits.now }
    requires done { (i : ℕ) → i < length (calls_of code.now f) → IsDone (visit_at visits.now (call_at code.now f i)) }
    requires depths { (g : ℕ) → IsDone (visit_at visits.now g) → HasDepth code.now (λ h. h ≡ g) (depth_of (visit_at visits.now g)) }
    ensures { HasDepth code.now (λ h. h ≡ f) result }
{
    let frame = u32::from(code[f].frame);
    let mut deepest = frame;
    for callee in code[f].calls.as_slice() {
        let below = visits[*callee as usize].depth();
        deepest = deepest.max(below.saturating_add(frame + RETURN_BYTES));
    }
    deepest
}

//! A walk over the paths from an end, depth first.

ghost use Rattle.std.specs.Prelude.{◌≡◌, ◌++◌, ◌+◌, ◌-◌, ◌*◌, ◌<◌, ◌∷◌, [], ℕ, List as ListOf, Bool, true, IsTrue, ◌↔◌, OnOk, IfOk, Ok, Err, Option, None, Some, MatchOption, length, slice_index_or, cond, take, false, ◌^◌};
ghost use Rattle.std.specs.List.{Contains};
ghost use Rattle.wire_targets.specs.declared.end.End.{End as EndOf};
ghost use Rattle.wire_targets.specs.declared.walk.Walk.{Walk as WalkOf};
ghost use Rattle.nm_base.specs.declared.limit.TheConstants.{MAX_WIRES};
ghost use Rattle.wire_targets.specs.Next.{IsTableOf};
ghost use Rattle.wire_targets.specs.Targets.{AreTargets, IsFirstLoop, AreTooMany, WalksAs, weight, implements};

use crate::end::{End, Wire};
use crate::table::Table;
use nm_base::{List, MAX_WIRES, NoMemory};
use std::alloc::{AllocError, AllocFailed, Global};

/// Why no targets were found: the number of a wire by which a path meets an end twice, more ends than `MAX_WIRES`, or want of
/// memory.
#[derive(Debug, Clone, Copy)]
pub enum Stop {
    Loop(usize),
    Wires,
    NoMemory,
}

impl From<NoMemory> for Stop {
    ghost use Rattle.std.specs.Prelude.{◌≡◌};
    ghost use Rattle.wire_targets.specs.declared.walk.Stop.TheVariants.{NoMemory};

    ghost from_gives = { λ _ e. e ≡ NoMemory };

    fn from(_error: NoMemory) -> Stop {
        Stop::NoMemory
    }
}

impl From<AllocError> for Stop {
    ghost use Rattle.std.specs.Prelude.{◌≡◌};
    ghost use Rattle.wire_targets.specs.declared.walk.Stop.TheVariants.{NoMemory};

    ghost from_gives = { λ _ e. e ≡ NoMemory };

    fn from(_error: AllocError) -> Stop {
        Stop::NoMemory
    }
}

impl<T: Drop> From<AllocFailed<T>> for Stop {
    ghost use Rattle.std.specs.Prelude.{◌≡◌};
    ghost use Rattle.wire_targets.specs.declared.walk.Stop.TheVariants.{NoMemory};

    ghost from_gives = { λ _ e. e ≡ NoMemory };

    fn from(_error: AllocFailed<T>) -> Stop {
        Stop::NoMemory
    }
}

// Whether the end is a sink.
fn implements(sinks: &[List<bool>], end: &End) -> bool
    ensures { result ≡ implements sinks.now end.now }
{
    match sinks.get(end.instance as usize) {
        Some(elements) => is_sink(elements, end.element),
        None => false,
    }
}

fn is_sink(elements: &List<bool>, element: u32) -> bool
    ensures { result ≡ slice_index_or elements.now element false }
{
    match elements.as_slice().get(element as usize) {
        Some(sink) => *sink,
        None => false,
    }
}

// Whether the end is among these.
fn has_met(ends: &[End], end: &End) -> bool
    ensures { IsTrue result ↔ Contains ends.now end.now }
{
    ends.contains(end)
}

/// The wires taken so far, the ends that they meet, the wire of the last end to look at next, and the sinks found.
#[derive(Debug, Drop)]
pub struct Walk {
    path: Vec<usize>,
    ends: Vec<End>,
    next: usize,
    met: u32,
    pub found: Vec<End>,
}

impl Walk {
    /// A walk that has met its first end alone.
    pub fn new(alloc: Global, start: End, first: usize, sinks: &[List<bool>]) -> Result<Walk, Stop>
        ensures path { IfOk result (λ w. w.path.items ≡ []) }
        ensures ends { IfOk result (λ w. w.ends.items ≡ start ∷ []) }
        ensures next { IfOk result (λ w. w.next ≡ first) }
        ensures met { IfOk result (λ w. w.met ≡ 1) }
        ensures found { IfOk result (λ w. w.found.items ≡ cond (implements sinks.now start) (start ∷ []) []) }
        ensures memory { (s : Stop) → result ≡ Err s → s ≡ Stop.NoMemory }
    {
        let mut ends = Vec::new(alloc);
        ends.push(start)?;
        let mut found = Vec::new(alloc);
        if implements(sinks, &start) {
            found.push(start)?;
        }
        Ok(Walk {
            path: Vec::new(alloc),
            ends,
            next: first,
            met: 1,
            found,
        })
    }

    // Follows a wire to an end that the path has not met, whose first wire is told.
    fn enter(
        &mut self,
        wire: usize,
        end: End,
        first: usize,
        sinks: &[List<bool>],
    ) -> Result<(), Stop>
        requires { self.old.met < MAX_WIRES }
        ensures path { OnOk result (self.new.path.items ≡ self.old.path.items ++ wire ∷ []) }
        ensures ends { OnOk result (self.new.ends.items ≡ self.old.ends.items ++ end ∷ []) }
        ensures next { OnOk result (self.new.next ≡ first) }
        ensures met { OnOk result (self.new.met ≡ self.old.met + 1) }
        ensures found { OnOk result (self.new.found.items ≡ self.old.found.items ++ cond (implements sinks.now end) (end ∷ []) []) }
        ensures memory { (s : Stop) → result ≡ Err s → s ≡ Stop.NoMemory }
    {
        self.path.push(wire)?;
        self.ends.push(end)?;
        self.next = first;
        self.met += 1;
        if implements(sinks, &end) {
            self.found.push(end)?;
        }
        Ok(())
    }

    // Goes back to the end before, where there is one.
    fn leave(&mut self, table: &Table) -> bool
        requires { (front : ListOf ℕ) (last : ℕ) → self.old.path.items ≡ front ++ last ∷ [] → last < length table.now.after.items }
        ensures stays { result ≡ false → (self.old.path.items ≡ []) × (self.new.found ≡ self.old.found) }
        ensures goes { result ≡ true → (last : ℕ) × (self.old.path.items ≡ self.new.path.items ++ last ∷ []) × (self.new.next ≡ slice_index_or table.now.after.items last 0) }
        ensures ends { result ≡ true → self.new.ends.items ≡ take (length self.old.ends.items - 1) self.old.ends.items }
        ensures met { self.new.met ≡ self.old.met }
        ensures found { self.new.found.items ≡ self.old.found.items }
    {
        match self.path.pop() {
            Some(wire) => {
                self.ends.pop();
                self.next = table.behind(wire);
                true
            }
            None => false,
        }
    }

    /// One turn: follows the next wire that leads on from the last end, or goes back. Says whether it could.
    pub fn advance(
        &mut self,
        wires: &[Wire],
        table: &Table,
        sinks: &[List<bool>],
    ) -> Result<bool, Stop>
        requires table { IsTableOf wires.now table.now }
        requires walks { (start : EndOf) × WalksAs wires.now sinks.now start self.old }
        ensures goes { (start : EndOf) → WalksAs wires.now sinks.now start self.old → result ≡ Ok true → WalksAs wires.now sinks.now start self.new }
        ensures falls { result ≡ Ok true → weight self.new < weight self.old }
        ensures ended { (start : EndOf) → WalksAs wires.now sinks.now start self.old → result ≡ Ok false → AreTargets wires.now sinks.now start self.new.found.items }
        ensures closes { (start : EndOf) (k : ℕ) → WalksAs wires.now sinks.now start self.old → result ≡ Err (Stop.Loop k) → IsFirstLoop wires.now start k }
        ensures many { (start : EndOf) → WalksAs wires.now sinks.now start self.old → result ≡ Err Stop.Wires → AreTooMany wires.now start }
    {
        let here = self.ends[self.ends.len() - 1];
        match table.leading(wires, &here, self.next) {
            Some((wire, end)) => {
                if has_met(self.ends.as_slice(), &end) {
                    return Err(Stop::Loop(wire));
                }
                if self.met >= MAX_WIRES {
                    return Err(Stop::Wires);
                }
                self.enter(wire, end, table.first(wires, &end), sinks)?;
                Ok(true)
            }
            None => Ok(self.leave(table)),
        }
    }
}

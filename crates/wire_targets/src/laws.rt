//! Laws: the wires decide the answer.

ghost use Rattle.std.specs.Prelude.{◌≡◌, ℕ, Bool, List as ListOf};
ghost use Rattle.wire_targets.specs.declared.end.End.{End as EndOf};
ghost use Rattle.wire_targets.specs.declared.end.Wire.{Wire as WireOf};
ghost use Rattle.wire_targets.specs.Targets.{AreTargets, IsFirstLoop, AreTooMany};

/// The wires decide the answer: one list of targets, one first loop, and of the three answers no two.
pub fn one_answer()
    ensures targets { (wires : ListOf WireOf) (sinks : ListOf (ListOf Bool)) (start : EndOf) (xs ys : ListOf EndOf) → AreTargets wires sinks start xs → AreTargets wires sinks start ys → xs ≡ ys }
    ensures closes { (wires : ListOf WireOf) (start : EndOf) (j k : ℕ) → IsFirstLoop wires start j → IsFirstLoop wires start k → j ≡ k }
    ensures open { (wires : ListOf WireOf) (sinks : ListOf (ListOf Bool)) (start : EndOf) (xs : ListOf EndOf) (k : ℕ) → AreTargets wires sinks start xs → IsFirstLoop wires start k → ⊥ }
    ensures few { (wires : ListOf WireOf) (sinks : ListOf (ListOf Bool)) (start : EndOf) (xs : ListOf EndOf) → AreTargets wires sinks start xs → AreTooMany wires start → ⊥ }
    ensures first { (wires : ListOf WireOf) (start : EndOf) (k : ℕ) → IsFirstLoop wires start k → AreTooMany wires start → ⊥ }
{}

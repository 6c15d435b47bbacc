//! A law of the bytes of bodies.

ghost use Rattle.body_bytes.specs.Laws.{BodiesAreSmall};

/// The functions of a well-formed program's bodies, where no call is inlined and no switch has more cases than statements that clear no
/// local, take at most 96 bytes for each node, and of these leave 62 for each dereference, with all jumps in their longer form.
pub fn bodies_are_small()
    ensures { BodiesAreSmall }
{}

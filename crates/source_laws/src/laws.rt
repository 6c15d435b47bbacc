//! Laws of what bodies do.

ghost use Rattle.source_laws.specs.Depth.{DepthCutsNothing};
ghost use Rattle.source_laws.specs.Orderly.{BodiesAreOrderly};

/// Of what a body does, Loads, Ins and Posts have an answer and nothing else has; each End closes an atomic statement that is open, and none is
/// open where the body returns.
pub fn bodies_are_orderly()
    ensures { BodiesAreOrderly }
{}

/// Where calls have no cycle, a call does the same however much deeper calls may be than there are bodies.
pub fn depth_cuts_nothing()
    ensures { DepthCutsNothing }
{}

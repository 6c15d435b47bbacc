//! A law of the actions of bodies.

ghost use Rattle.core_act.specs.Actions.{ActionsGrow};

/// More answers or more turns only extend what `act` gives.
pub fn actions_grow()
    ensures { ActionsGrow }
{}

//! The ways out of statements.

ghost use Rattle.std.specs.Prelude.{◌≡◌, option_copied};
ghost use Rattle.nesc_core.specs.PlaceTypes.{type_in};
ghost use Rattle.nesc_core.specs.WellFormed as spec;
ghost use Rattle.well_formed.specs.Exits.{exits_of};

use nesc_core::CoreType;

/// How a statement may be left: by a value of a type, by a break, by a continue.
#[derive(Clone, Copy)]
pub(crate) struct Ways<'a> {
    pub(crate) gives: Option<&'a CoreType>,
    pub(crate) breaks: bool,
    pub(crate) continues: bool,
}

/// The ways out of a body or an inlined call.
pub(crate) fn by_return(gives: Option<&CoreType>) -> Ways
    ensures { exits_of result ≡ spec.by_return (type_in (option_copied gives.entry)) }
{
    Ways {
        gives,
        breaks: false,
        continues: false,
    }
}

/// The ways out of a loop's body.
pub(crate) fn in_loop(ways: Ways) -> Ways
    ensures { exits_of result ≡ spec.in_loop (exits_of ways.entry) }
{
    Ways {
        gives: ways.gives,
        breaks: true,
        continues: true,
    }
}

/// The ways out of a switch's statements.
pub(crate) fn in_switch(ways: Ways) -> Ways
    ensures { exits_of result ≡ spec.in_switch (exits_of ways.entry) }
{
    Ways {
        gives: ways.gives,
        breaks: true,
        continues: ways.continues,
    }
}

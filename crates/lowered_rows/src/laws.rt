//! That the rules of form are decided.

ghost use Rattle.lowered_rows.specs.Form.{FormIsDecided};

/// A function without parameters that calls none keeps the rules of form of middle code where `has_form` says so.
pub fn form_is_decided()
    ensures { FormIsDecided }
{}

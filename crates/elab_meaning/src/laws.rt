//! Laws of conversions.

ghost use Rattle.elab_meaning.specs.Laws.{ConversionsWrap};

/// A conversion keeps a value's number, wrapped to the new type.
pub fn conversions_wrap()
    ensures { ConversionsWrap }
{}

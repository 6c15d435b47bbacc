//! Worked rows of the grammar.

ghost use Rattle.nesc_grammar.specs.Rows.{WorkedRows};
ghost use Rattle.nesc_grammar.specs.DeclarationRows.{DeclarationRows, DeclarationTrees};

/// The grammar gives these trees of expressions, and stops at these places.
pub fn worked_rows()
    ensures { WorkedRows }
{}

/// The grammar gives these trees of declarations, statements and components.
pub fn declaration_trees()
    ensures { DeclarationTrees }
{}

/// It refuses these texts at these tokens, and needs this many levels.
pub fn declaration_rows()
    ensures { DeclarationRows }
{}

//! Laws of printing declarations.

ghost use Rattle.nesc_print_decl_laws.specs.DeclarationsAgain.{AttributesAreReadAgain, DeclarationsAreReadAgain, DeclarationListsAreReadAgain};

/// Where some tokens spell a declaration outside of blocks, tokens that are its words spell it again up to places, whatever stands
/// behind them, and the same type names are in force there.
pub fn declarations_are_read_again()
    ensures { DeclarationsAreReadAgain }
{}

/// The same of the declarations of a header or a module, one behind the other, before a token that begins none, and with the token
/// that ends them.
pub fn declaration_lists_are_read_again()
    ensures { DeclarationListsAreReadAgain }
{}

/// The same of an attribute; the names stay.
pub fn attributes_are_read_again()
    ensures { AttributesAreReadAgain }
{}

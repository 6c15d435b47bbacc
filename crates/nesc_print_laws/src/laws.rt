//! Laws of printing.

ghost use Rattle.nesc_print_laws.specs.ReadAgain.{ExpressionsAreReadAgain, TypesAreReadAgain};
ghost use Rattle.nesc_print_laws.specs.StatementsAgain.{StatementsAreReadAgain};

/// Where some tokens spell an expression, tokens that are its words spell it again up to places, with parentheses where its level needs
/// them, under the same type names.
pub fn expressions_are_read_again()
    ensures { ExpressionsAreReadAgain }
{}

/// The same of a type, definitions of structs and enums among them.
pub fn types_are_read_again()
    ensures { TypesAreReadAgain }
{}

/// The same of a statement, with what it declares.
pub fn statements_are_read_again()
    ensures { StatementsAreReadAgain }
{}

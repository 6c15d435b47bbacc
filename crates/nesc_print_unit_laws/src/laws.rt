//! Laws of printing files.

ghost use Rattle.nesc_print_unit_laws.specs.PrintedFiles.{PrintedFilesAreReadAgain};
ghost use Rattle.nesc_print_unit_laws.specs.UnitsAgain.{ComponentsAreReadAgain, InterfacesAreReadAgain, PartsAreReadAgain};

/// Where some tokens spell an interface behind the declarations of its headers, tokens that are its words spell it again up to places,
/// whatever stands behind them, and the same type names are in force there.
pub fn interfaces_are_read_again()
    ensures { InterfacesAreReadAgain }
{}

/// The same of a module or a configuration.
pub fn components_are_read_again()
    ensures { ComponentsAreReadAgain }
{}

/// The same of a command or event of an interface, of the parameters of a generic component, of the elements of a specification and of the
/// lines of a configuration.
pub fn parts_are_read_again()
    ensures { PartsAreReadAgain }
{}

/// Where some tokens, each a lexeme by itself, spell what a file holds, each text of its words, laid out in whatever way, has such tokens, and
/// they spell it again up to places.
pub fn printed_files_are_read_again()
    ensures { PrintedFilesAreReadAgain }
{}

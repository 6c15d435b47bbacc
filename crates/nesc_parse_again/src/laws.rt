//! The law of parsing what was printed.

ghost use Rattle.nesc_parse_again.specs.ParsedAgain.{PrintedFilesAreParsedAgain};

/// Where a file was parsed whose tokens are lexemes by themselves, each text of the words of its tree has tokens, and whatever the parser
/// may answer to them, as a file of the same name under the same type names, is the same tree up to places, Limit(Depth) or `NoMemory`.
pub fn printed_files_are_parsed_again()
    ensures { PrintedFilesAreParsedAgain }
{}

//! The law of whole words.

ghost use Rattle.nesc_print_whole.specs.WholeWords.{LexedTokensAreWhole, PrintedWordsAreWhole};

/// Where tokens that are lexemes by themselves spell what a file holds, so is each of its words.
pub fn printed_words_are_whole()
    ensures { PrintedWordsAreWhole }
{}

/// The tokens of a text are lexemes by themselves.
pub fn lexed_tokens_are_whole()
    ensures { LexedTokensAreWhole }
{}
